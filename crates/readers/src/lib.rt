// One record of each kind, read from a part of the table that starts at its first word.
#![tactic(auto)]

pub mod bridge;
pub mod end;
pub mod fault;
pub mod half_link;
pub mod member;
pub mod traffic;
pub mod vid;
pub mod words;
