// Lookup: ports of entries read back from an entry list (01, "Calls").
#![tactic(auto)]

pub mod entry;
pub mod list;
