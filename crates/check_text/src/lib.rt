// The check's outcome as a line of text.
#![tactic(auto)]

pub mod check;
