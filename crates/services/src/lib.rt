// The library's face for service advertisements (02, A2): the calls that read and write them. Each examines its table itself and asks
// nothing of its caller.
#![tactic(auto)]

pub mod advertisements;
