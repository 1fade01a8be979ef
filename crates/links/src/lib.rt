// The links of a table that passed the check (01, "Links").
#![tactic(auto)]

pub mod counts;
pub mod hop;
pub mod usable;
