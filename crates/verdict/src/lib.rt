// What a check answers: accepted, or the first refusal in checking order with the record concerned.
#![tactic(auto)]

ghost use Rattle.std.specs.Prelude.{◌≡◌};
ghost use Rattle.verdict.specs.Verdict as spec;

#[derive(Clone, Copy, Debug, PartialEq, Eq)]
pub enum Refusal {
    FileTooShort,
    UnknownEdition,
    MarkOutOfRange,
    CountTooHigh,
    LayoutDisagrees,
    RecordOutOfRange(u16),
    StepAgainstItself(u16),
    StartsMiscounted,
    FixedStepMoved(u16),
    EffectsConflict(u16),
    ConditionFails(u16),
    LevelOutOfBounds(u16),
    GoalFails(u16),
    TimedFactsConflict(u16),
    NeedUnmet(u16),
}

// Accepted, or why not.
pub type Verdict = Result<(), Refusal>;

// The place where none is named.
pub const NOWHERE: u16 = 65535;

impl Refusal {
    // The number of a refusal.
    pub fn number(self) -> u16
        ensures { result ≡ spec.refusal_number self }
    {
        match self {
            Refusal::FileTooShort => 1,
            Refusal::UnknownEdition => 2,
            Refusal::MarkOutOfRange => 3,
            Refusal::CountTooHigh => 4,
            Refusal::LayoutDisagrees => 5,
            Refusal::RecordOutOfRange(_) => 6,
            Refusal::StepAgainstItself(_) => 7,
            Refusal::StartsMiscounted => 8,
            Refusal::FixedStepMoved(_) => 9,
            Refusal::EffectsConflict(_) => 10,
            Refusal::ConditionFails(_) => 11,
            Refusal::LevelOutOfBounds(_) => 12,
            Refusal::GoalFails(_) => 13,
            Refusal::TimedFactsConflict(_) => 17,
            Refusal::NeedUnmet(_) => 21,
        }
    }

    // The place of a refusal.
    pub fn place(self) -> u16
        ensures { result ≡ spec.refusal_place self }
    {
        match self {
            Refusal::FileTooShort => NOWHERE,
            Refusal::UnknownEdition => NOWHERE,
            Refusal::MarkOutOfRange => NOWHERE,
            Refusal::CountTooHigh => NOWHERE,
            Refusal::LayoutDisagrees => NOWHERE,
            Refusal::RecordOutOfRange(k) => k,
            Refusal::StepAgainstItself(k) => k,
            Refusal::StartsMiscounted => NOWHERE,
            Refusal::FixedStepMoved(k) => k,
            Refusal::EffectsConflict(k) => k,
            Refusal::ConditionFails(k) => k,
            Refusal::LevelOutOfBounds(k) => k,
            Refusal::GoalFails(k) => k,
            Refusal::TimedFactsConflict(k) => k,
            Refusal::NeedUnmet(k) => k,
        }
    }
}

// The number of a verdict's refusal, 0 for accepted.
pub fn number(v: Verdict) -> u16
    ensures { result ≡ spec.number v }
{
    match v {
        Ok(()) => 0,
        Err(refusal) => refusal.number(),
    }
}

// The place of a verdict's refusal.
pub fn place(v: Verdict) -> u16
    ensures { result ≡ spec.place v }
{
    match v {
        Ok(()) => NOWHERE,
        Err(refusal) => refusal.place(),
    }
}
