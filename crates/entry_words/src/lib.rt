// The words of filtering entries (01, "Entries"), by the ports of rows, in lent lists.
#![tactic(auto)]

pub mod group;
pub mod individual;
