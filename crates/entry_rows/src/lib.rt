// The rows of egress ports that the entries of a bridge need.
#![tactic(auto)]

pub mod needed;
