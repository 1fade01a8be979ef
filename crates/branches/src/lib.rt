// The tree call of a checked table: cost, hops and last bridge for every bridge.
#![tactic(auto)]

pub mod branches;
