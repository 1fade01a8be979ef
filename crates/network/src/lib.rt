// The network of a checked table: one lent list of words, made by one function, that the search and the layers above read.
#![tactic(auto)]

pub mod bridges;
pub mod hops;
pub mod make;
pub mod near;
pub mod parts;
