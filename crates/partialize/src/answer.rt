// What loosening answers.
ghost use Rattle.std.specs.Prelude.{◌≡◌};
ghost use Rattle.partialize.specs.declared.answer.Unfiled.TheVariants.{Refused};
ghost use Rattle.partialize.specs.Answer as spec;

use verdict::{NOWHERE, Refusal};

// Why no file is written.
#[derive(Clone, Copy, Debug, PartialEq, Eq)]
pub enum Unfiled {
    // A refusal of the job check.
    Refused(Refusal),
    BufferTooShort,
}

// The file's length, or why none is written.
pub type Answer = Result<u32, Unfiled>;

impl From<Refusal> for Unfiled {
    ghost from_gives = { λ refusal e. e ≡ Refused refusal };

    fn from(refusal: Refusal) -> Unfiled {
        Unfiled::Refused(refusal)
    }
}

impl Unfiled {
    // The number of a refusal.
    pub fn number(self) -> u16
        ensures { result ≡ spec.refusal_number self }
    {
        match self {
            Unfiled::Refused(refusal) => refusal.number(),
            Unfiled::BufferTooShort => 15,
        }
    }

    // The place of a refusal.
    pub fn place(self) -> u16
        ensures { result ≡ spec.refusal_place self }
    {
        match self {
            Unfiled::Refused(refusal) => refusal.place(),
            Unfiled::BufferTooShort => NOWHERE,
        }
    }
}

// The number of an answer's refusal, 0 for accepted.
pub fn number(a: Answer) -> u16
    ensures { result ≡ spec.number a }
{
    match a {
        Ok(_) => 0,
        Err(refusal) => refusal.number(),
    }
}

// The place of an answer's refusal.
pub fn place(a: Answer) -> u16
    ensures { result ≡ spec.place a }
{
    match a {
        Ok(_) => NOWHERE,
        Err(refusal) => refusal.place(),
    }
}

// The file's length, 0 for a refusal.
pub fn length(a: Answer) -> u32
    ensures { result ≡ spec.length_of a }
{
    a.unwrap_or(0)
}
