// The ports of a bridge: those of its hops, rising, and those by which the chosen paths of a plan leave it.
#![tactic(auto)]

pub mod hops;
pub mod leaving;
pub mod rows;
