// The lines of the listing (01, "Listing program"), written into lent bytes.
#![tactic(auto)]

pub mod entry_line;
pub mod path_line;
pub mod refusal;
