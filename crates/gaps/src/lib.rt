// The table of gaps, filled by the rules.
#![tactic(auto)]

pub mod fill;
mod needs;
