// The parts of a listing (01, "Listing program"), of a table that passed the check: the counts line, the path lines of one VID and from,
// the entry lines of one bridge, and the load report (02, A5).
#![tactic(auto)]

pub mod entry_lines;
pub mod labelled_line;
pub mod part;
pub mod path_lines;
