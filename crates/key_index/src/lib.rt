// An index of up to 512 keys in a lent list of 1,536 numbers: where a key was entered last, found along a chain of few keys
// rather than by a search among all. Places count from 1, in the order of entering; 0 is none.
#![tactic(auto)]

pub mod chain;
pub mod entry;
