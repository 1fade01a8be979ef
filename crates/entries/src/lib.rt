// Filtering entries of a bridge (01, "Entries"): the rows that they need, the parts of its list, and the list of a table.
#![tactic(auto)]

pub mod list;
pub mod parts;
