// Services written (02, A2): a bridge's members of one VID as sub-TLVs, of a table that passed the check.
#![tactic(auto)]

pub mod write;
pub mod written;
