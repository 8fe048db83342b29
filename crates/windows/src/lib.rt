// Limits, latest starts, and the rounds to the earliest starts.
#![tactic(auto)]

pub mod starts;
pub mod window;
