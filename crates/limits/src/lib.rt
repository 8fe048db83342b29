// Limits that timed facts give: a timed fact acts as an effect of another step, but cannot move.
#![tactic(auto)]

pub mod earliest;
pub mod latest;
mod timed;
