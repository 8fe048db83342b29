// What the facts hold along the points of a job: refusals 10 and 11, a file a rule.
#![tactic(auto)]

pub mod conditions;
pub mod effects;
