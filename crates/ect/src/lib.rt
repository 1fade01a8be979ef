// Equal cost trees (01, "The chosen path"): masks, masked identifiers, rows of them sorted upward, and their comparison.
#![tactic(auto)]

pub mod comparison;
pub mod mask;
pub mod row;
