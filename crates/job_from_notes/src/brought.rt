// Which notes bring a record of a kind, and the numbers that notes hold.
ghost use Rattle.std.specs.Prelude.{◌≡◌, ◌/◌, ◌≤◌, ◌<◌, length};
ghost use Rattle.std.proofs.Math.Seq.{slice};
ghost use Rattle.little_endian.specs.Bytes.{u32_values};
ghost use Rattle.job_notes.specs.Tables.{number_noted, leading_noted, in_action_noted, length_noted};
ghost use Rattle.job_from_notes.specs.Brought.{brings, within};

use notes::{GIVEN, NUMBER, OVER_ALL, REACHED, RISE, SET, WANTED, WANTED_AT_END};

// The tables whose records notes bring one by one: a closed few, by which contracts say what is brought, so functions match on them and take no
// closure.
#[derive(Clone, Copy)]
pub enum Kind {
    Conditions,
    Effects,
    Uses,
    Goals,
}

// Whether a note of a role brings a record, in a step of a length: what holds over all needs a length of 2.
pub fn brings(kind: Kind, role: usize, duration: usize) -> bool
    ensures { result ≡ brings kind duration role }
{
    match kind {
        Kind::Conditions => wants(role, duration),
        Kind::Effects => !((role < SET) | (REACHED <= role)),
        Kind::Uses => !((role < RISE) | (WANTED <= role)),
        Kind::Goals => !((role < REACHED) | (GIVEN <= role)),
    }
}

// Of the facts that are wanted.
fn wants(role: usize, duration: usize) -> bool
    ensures { result ≡ brings Kind.Conditions duration role }
{
    !(role < WANTED)
        & ((role < OVER_ALL)
            | ((role < WANTED_AT_END) & !(duration < 2))
            | (!(role < WANTED_AT_END) & (role < SET)))
}

// Whether a note belongs to the action before it.
fn in_action(w: u64) -> bool
    ensures { result ≡ in_action_noted w }
{
    let role = notes::role(w);
    (role == NUMBER) | ((RISE <= role) & (role < REACHED))
}

// Whether a walk goes on over a note: an action's to its end, that for goals over all notes.
pub fn within(kind: Kind, w: u64) -> bool
    ensures { result ≡ within kind w }
{
    match kind {
        Kind::Conditions => in_action(w),
        Kind::Effects => in_action(w),
        Kind::Uses => in_action(w),
        Kind::Goals => true,
    }
}

// The number that a note holds.
pub fn number(w: u64) -> usize
    ensures { (result ≡ number_noted w) × (result < u32_values) }
{
    if notes::role(w) == NUMBER {
        notes::value(w)
    } else {
        0
    }
}

// The number at a place, 0 behind the last note.
pub fn leading(said: &[u64], k: usize) -> usize
    requires { k ≤ length said.now }
    ensures { (result ≡ leading_noted (slice k (length said.now) said.now)) × (result < u32_values) }
{
    if k < said.len() { number(said[k]) } else { 0 }
}

// How long a step lasts: the third note of its line.
pub fn lasts(plan: &[u64], s: usize) -> usize
    requires { s < length plan.now / 3 }
    ensures { result ≡ length_noted plan.now s }
{
    number(plan[3 * s + 2])
}
