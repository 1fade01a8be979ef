// Shortest path trees (01, "The chosen path") over neighbour lists and keys, in lent lists.
#![tactic(auto)]

pub mod marks;
pub mod search;
pub mod settle;
