// A path's cost and its hop count, which the answers name.
#![tactic(auto)]

pub mod measure;
