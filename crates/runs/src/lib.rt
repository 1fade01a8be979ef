// All records of one kind read, one after the other: "Kinds never fall from one record to the next" (01, "The table"), so they stand
// together.
#![tactic(auto)]

pub mod kinds;
pub mod run;
