// The trees of a network's chosen paths, made one by one and kept in a lent store (01, "The chosen path").
#![tactic(auto)]

pub mod plan_tree;
pub mod store;
