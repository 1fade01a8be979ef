// Paths and trees of a table that passed the check (01, "Calls").
#![tactic(auto)]

pub mod named;
pub mod path;
