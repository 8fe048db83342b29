// What stands against a value among the points of a group.
#![tactic(auto)]

pub mod neighbours;
pub mod scan;
