// The loads of a plan's joined pairs for an assignment of ECT indexes to its VIDs (02, A5), by the trees of its chosen paths.
#![tactic(auto)]

pub mod along;
pub mod pair;
pub mod report;
pub mod traffic;
