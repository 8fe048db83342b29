// What is asked along the uses of each level: refusal 12, and of refusal 7 whether a step uses a level twice at one tick.
#![tactic(auto)]

pub mod bounds;
pub mod uses;
