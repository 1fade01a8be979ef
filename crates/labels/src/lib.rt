// The labels of a tree in the making: read, compared, lowered by an offer, and the nearest bridge among them.
#![tactic(auto)]

pub mod label;
pub mod nearest;
pub mod relax;
