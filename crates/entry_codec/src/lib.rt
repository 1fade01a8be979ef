// The codec of an entry (01, "Entries"): its three words written, their fields read, and the group address.
#![tactic(auto)]

pub mod group_address;
pub mod layout;
pub mod reader;
pub mod writer;
