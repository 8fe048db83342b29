// When a timing is sound: definitions and theorems without code.
#![tactic(auto)]

// The rules that name a record, in checking order.
#[derive(Clone, Copy)]
pub enum Rule {
    FixedSteps,
    Effects,
    Conditions,
    Levels,
    Needs,
    Goals,
}
