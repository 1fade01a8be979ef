// The verdict on a table (01, "Refusals in checking order", 1 to 10).
#![tactic(auto)]

pub mod examine;
