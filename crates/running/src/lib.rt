// A plan edited on screen (02, A7): load, and changes of the running table. No call has a `requires`.
#![tactic(auto)]

pub mod calls;
mod permission;
