// Readers of items: facts and changes, and conditions, effects and goals one inside another.
#![tactic(auto)]

pub mod literals;
pub mod nested;
