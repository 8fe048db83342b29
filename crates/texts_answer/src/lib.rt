// What two texts are answered.
#![tactic(auto)]

ghost use Rattle.std.specs.Prelude.{◌≡◌};
ghost use Rattle.texts_answer.specs.declared.TextsRefusal.TheVariants.{Refused};
ghost use Rattle.texts_answer.specs.Answer as spec;

use verdict::{NOWHERE, Refusal};

// Why no job is made of two texts.
#[derive(Clone, Copy, Debug, PartialEq, Eq)]
pub enum TextsRefusal {
    // The line where the action text leaves the grammar, or is nested too deep.
    ActionsOutside(u16),
    ActionsTooDeep(u16),
    // The line where the plan leaves the grammar, or names no action or has another duration.
    PlanOutside(u16),
    PlanDiffers(u16),
    // A refusal of the job check.
    Refused(Refusal),
    BufferTooShort,
}

// The job's length, or why none is made.
pub type TextsAnswer = Result<u32, TextsRefusal>;

impl From<Refusal> for TextsRefusal {
    ghost from_gives = { λ refusal e. e ≡ Refused refusal };

    fn from(refusal: Refusal) -> TextsRefusal {
        TextsRefusal::Refused(refusal)
    }
}

impl TextsRefusal {
    // The number of a refusal.
    pub fn number(self) -> u16
        ensures { result ≡ spec.refusal_number self }
    {
        match self {
            TextsRefusal::ActionsOutside(_) => 18,
            TextsRefusal::ActionsTooDeep(_) => 19,
            TextsRefusal::PlanOutside(_) => 18,
            TextsRefusal::PlanDiffers(_) => 20,
            TextsRefusal::Refused(refusal) => refusal.number(),
            TextsRefusal::BufferTooShort => 15,
        }
    }

    // The place of a refusal: a line of its text, or the record that the job check names.
    pub fn place(self) -> u16
        ensures { result ≡ spec.refusal_place self }
    {
        match self {
            TextsRefusal::ActionsOutside(line) => line,
            TextsRefusal::ActionsTooDeep(line) => line,
            TextsRefusal::PlanOutside(line) => line,
            TextsRefusal::PlanDiffers(line) => line,
            TextsRefusal::Refused(refusal) => refusal.place(),
            TextsRefusal::BufferTooShort => NOWHERE,
        }
    }
}

// The number of an answer's refusal, 0 for accepted.
pub fn number(a: TextsAnswer) -> u16
    ensures { result ≡ spec.number a }
{
    match a {
        Ok(_) => 0,
        Err(refusal) => refusal.number(),
    }
}

// The place of an answer's refusal.
pub fn place(a: TextsAnswer) -> u16
    ensures { result ≡ spec.place a }
{
    match a {
        Ok(_) => NOWHERE,
        Err(refusal) => refusal.place(),
    }
}

// The job's length, 0 for a refusal.
pub fn length(a: TextsAnswer) -> u32
    ensures { result ≡ spec.length_of a }
{
    a.unwrap_or(0)
}
