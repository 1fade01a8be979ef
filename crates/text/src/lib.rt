// Numbers, fields and lines as text, written into lent bytes (01, "Listing program").
#![tactic(auto)]

pub mod digits;
pub mod fields;
