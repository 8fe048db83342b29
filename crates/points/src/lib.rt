// The points of a job: their words in order.
#![tactic(auto)]

pub mod timelines;
pub mod words;
