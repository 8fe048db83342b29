// When a step or the clock is against itself, and what the search by pairs finds: definitions and theorems without code.
#![tactic(auto)]

// How many pairs were compared, and whether the last of them sets a fact both ways.
#[derive(Clone, Copy)]
pub struct Search {
    pub compared: u32,
    pub found: bool,
}

// How many pairs were compared in all, and the step of the pair found, or the count of steps.
#[derive(Clone, Copy)]
pub struct StepSearch {
    pub compared: u32,
    pub step: u16,
}
