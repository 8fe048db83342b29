// An answer as one number.
#![tactic(auto)]

ghost use Rattle.std.specs.Prelude.{◌≡◌};
ghost use Rattle.packing.specs.Packed as spec;

use order_answers::{BrokenFile, Header, NotAnOrderFile, Record};
use pair_search::answer::PairsAnswer;
use partialize::answer;
use partialize::answer::Answer;
use texts_answer::TextsAnswer;
use verdict::{NOWHERE, Verdict};

// The length, the count or the yes above 32 bits, the refusal's number above 16, and the place.
fn packed(answer: u32, number: u16, place: u16) -> u64
    ensures { result ≡ spec.packed answer number place }
{
    (answer as u64) * 4294967296 + (number as u64) * 65536 + place as u64
}

// What a check answers.
pub fn packed_verdict(v: Verdict) -> u64
    ensures { result ≡ spec.packed_verdict v }
{
    packed(0, verdict::number(v), verdict::place(v))
}

// What loosening answers.
pub fn packed_answer(a: Answer) -> u64
    ensures { result ≡ spec.packed_answer a }
{
    packed(answer::length(a), answer::number(a), answer::place(a))
}

// What two texts are answered.
pub fn packed_texts(a: TextsAnswer) -> u64
    ensures { result ≡ spec.packed_texts a }
{
    packed(
        texts_answer::length(a),
        texts_answer::number(a),
        texts_answer::place(a),
    )
}

// What the search by pairs answers.
pub fn packed_pairs(a: PairsAnswer) -> u64
    ensures { result ≡ spec.packed_pairs a }
{
    packed(
        pair_search::answer::compared(a),
        pair_search::answer::number(a),
        pair_search::answer::place(a),
    )
}

// What the alike test answers.
pub fn packed_alike(a: Result<bool, BrokenFile>) -> u64
    ensures { result ≡ spec.packed_alike a }
{
    match a {
        Ok(yes) => packed(u32::from(yes), 0, NOWHERE),
        Err(file) => packed(0, file.number(), file.place()),
    }
}

// What the reader of a header answers.
pub fn packed_header(a: Result<Header, NotAnOrderFile>) -> u64
    ensures { result ≡ spec.packed_header a }
{
    match a {
        Ok(_header) => packed(0, 0, NOWHERE),
        Err(refusal) => packed(0, refusal.number(), refusal.place()),
    }
}

// What the reader of a record answers.
pub fn packed_record(a: Result<Record, NotAnOrderFile>) -> u64
    ensures { result ≡ spec.packed_record a }
{
    match a {
        Ok(_record) => packed(0, 0, NOWHERE),
        Err(refusal) => packed(0, refusal.number(), refusal.place()),
    }
}
