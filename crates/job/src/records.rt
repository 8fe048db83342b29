// The records of a job file, whole.

// A level's record: its three numbers, each plus SIGN_BIAS.
#[derive(Clone, Copy)]
pub struct Level {
    pub initial: usize,
    pub least: usize,
    pub most: usize,
}

// The deadline of a goal that has none.
pub const NO_DEADLINE: usize = 4294967295;

// A step's record.
#[derive(Clone, Copy)]
pub struct Step {
    pub start: usize,
    pub length: usize,
    pub fixed: u16,
}

// A goal's.
#[derive(Clone, Copy)]
pub struct Goal {
    pub fact: u16,
    pub value: u16,
    pub deadline: usize,
}

// A condition's, an effect's and a use's.
#[derive(Clone, Copy)]
pub struct Condition {
    pub step: u16,
    pub fact: u16,
    pub from: usize,
    pub to: usize,
    pub value: u16,
}

#[derive(Clone, Copy)]
pub struct Effect {
    pub step: u16,
    pub fact: u16,
    pub at: usize,
    pub value: u16,
}

#[derive(Clone, Copy)]
pub struct Use {
    pub step: u16,
    pub level: u16,
    pub at: usize,
    pub amount: usize,
}

// A need's: what its level must reach, plus SIGN_BIAS.
#[derive(Clone, Copy)]
pub struct Need {
    pub step: u16,
    pub level: u16,
    pub at: usize,
    pub least: usize,
}

// A timed fact's: what the clock sets, and at which tick.
#[derive(Clone, Copy)]
pub struct TimedFact {
    pub fact: u16,
    pub tick: usize,
    pub value: u16,
}
