// One record of a table read: taken, or refused with its lowest fault (01, "Refusals in checking order").
#![tactic(auto)]

pub mod step;
