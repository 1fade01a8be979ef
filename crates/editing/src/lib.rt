// Half-links of a table found by name, changed and withdrawn in the table's bytes (02, A7).
#![tactic(auto)]

pub mod find;
pub mod replace;
