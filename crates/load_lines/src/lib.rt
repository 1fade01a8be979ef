// The load report as lines of the listing (02, A5): a line for each joined pair, total and lost.
#![tactic(auto)]

pub mod pair_line;
pub mod pair_lines;
pub mod report;
