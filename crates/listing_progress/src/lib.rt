// A listing given part by part (01, "Listing program").
#![tactic(auto)]

pub mod progress;
