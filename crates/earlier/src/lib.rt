// A record against the records before it: names that are missing, values that repeat, the other half of a link.
#![tactic(auto)]

pub mod half_link;
pub mod repeats;
pub mod traffic;
