// The lowest fault of each record of a table (01, "Refusals in checking order", 2 to 10).
#![tactic(auto)]

pub mod lowest;
