// The library's face: the calls of document 01 ("Calls"), the tree call (docs/DECISIONS.md) and the functions exported to C. A call that
// takes a table examines it itself, and none asks anything of its caller.
#![tactic(auto)]

pub mod check;
pub mod entry_lists;
pub mod exported;
pub mod lookups;
pub mod paths;
pub mod tree_lists;
