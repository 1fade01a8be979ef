// Numbers of records: a metric, a range test, two words as one number.
#![tactic(auto)]

pub mod metric;
pub mod number;
