// A plan edited on screen (02, A7): what a change names, and, in specs, what changes come to.
#![tactic(auto)]

pub mod change;
