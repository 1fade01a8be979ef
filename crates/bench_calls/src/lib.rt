// Functions that the benchmark links: they run the calls and the search that C cannot reach otherwise. No part of the library.
#![tactic(auto)]

pub mod calls;
pub mod changes;
