// Tables read and checked (01, "The table" and "Refusals in checking order").
#![tactic(auto)]

pub mod records;
pub mod shape;
