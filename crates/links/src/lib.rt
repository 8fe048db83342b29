// What supports each condition and goal, and the numbers of these links in the file.
#![tactic(auto)]

pub mod numbers;
pub mod support;
pub mod tie;
