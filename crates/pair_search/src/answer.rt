// What the search by pairs answers of a file.
ghost use Rattle.std.specs.Prelude.{◌≡◌};
ghost use Rattle.pair_search.specs.Answer as spec;

use verdict::{NOWHERE, Refusal};

#[derive(Clone, Copy, Debug, PartialEq, Eq)]
pub enum PairsAnswer {
    // How many pairs were compared: all, as no step sets a fact both ways.
    NoneFound(u32),
    // How many pairs were compared, and the step of the last one, which sets a fact both ways.
    Found(u32, u16),
    // A refusal of the header or the records.
    Refused(Refusal),
}

// The number of a refusal, 0 for a search.
pub fn number(a: PairsAnswer) -> u16
    ensures { result ≡ spec.number a }
{
    match a {
        PairsAnswer::NoneFound(_) => 0,
        PairsAnswer::Found(_, _) => 0,
        PairsAnswer::Refused(refusal) => refusal.number(),
    }
}

// The step of the pair found, or the place of a refusal.
pub fn place(a: PairsAnswer) -> u16
    ensures { result ≡ spec.place a }
{
    match a {
        PairsAnswer::NoneFound(_) => NOWHERE,
        PairsAnswer::Found(_, step) => step,
        PairsAnswer::Refused(refusal) => refusal.place(),
    }
}

// How many pairs were compared, 0 for a refusal.
pub fn compared(a: PairsAnswer) -> u32
    ensures { result ≡ spec.compared a }
{
    match a {
        PairsAnswer::NoneFound(n) => n,
        PairsAnswer::Found(n, _) => n,
        PairsAnswer::Refused(_) => 0,
    }
}
