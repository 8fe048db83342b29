// The records that notes bring, written one behind the other.
ghost use Rattle.std.specs.Prelude.{◌≡◌, ◌+◌, ◌/◌, ◌≤◌, ◌<◌, length};
ghost use Rattle.std.proofs.lemmas.List.Edits.{sets};
ghost use Rattle.little_endian.specs.Bytes.{u32_values};
ghost use Rattle.job_from_notes.specs.Brought.{wanted, set, used, reached, row_noted, part_noted, width_of, parts_from, planned_bytes};
ghost use Rattle.job_from_notes.specs.Counted.{Walked};
ghost use Rattle.job_from_notes.specs.Putting.{Put};

use crate::brought::{Kind, brings, lasts, leading, within};
use crate::noted::Noted;
use job::layout::{CONDITION, EFFECT, GOAL, USE, WIDTHS};
use job::records::{Condition, Effect, Goal, NO_DEADLINE, Use};
use job_writer::{write_condition, write_effect, write_goal, write_use};
use little_endian::SIGN_BIAS;
use notes::{FALL, OVER_ALL, SET_AT_END, WANTED_AT_END};

// A step, and how long it lasts.
#[derive(Clone, Copy)]
pub struct Span {
    pub step: u16,
    pub duration: usize,
}

// The record that a note of a role brings, whose name has a number.
fn wanted(span: Span, role: usize, fact: u16) -> Condition
    ensures { result ≡ wanted span.step span.duration role fact }
{
    let (from, to) = if role < OVER_ALL {
        (0, 0)
    } else if role < WANTED_AT_END {
        (1, span.duration.saturating_sub(1))
    } else {
        (span.duration, span.duration)
    };
    Condition {
        step: span.step,
        fact,
        from,
        to,
        value: (role % 2) as u16,
    }
}

fn set(span: Span, role: usize, fact: u16) -> Effect
    ensures { result ≡ set span.step span.duration role fact }
{
    Effect {
        step: span.step,
        fact,
        at: if role < SET_AT_END { 0 } else { span.duration },
        value: (role % 2) as u16,
    }
}

fn used(span: Span, role: usize, level: u16, amount: usize) -> Use
    requires { amount < u32_values }
    ensures { result ≡ used span.step span.duration role level amount }
{
    Use {
        step: span.step,
        level,
        at: if role % 2 == 0 { 0 } else { span.duration },
        amount: if role < FALL {
            SIGN_BIAS + amount
        } else {
            SIGN_BIAS.saturating_sub(amount)
        },
    }
}

fn reached(role: usize, fact: u16) -> Goal
    ensures { result ≡ reached 0 0 role fact }
{
    Goal {
        fact,
        value: (role % 2) as u16,
        deadline: NO_DEADLINE,
    }
}

// The bytes of a record of a kind.
fn width(kind: Kind) -> usize
    ensures { result ≡ width_of kind }
{
    match kind {
        Kind::Conditions => WIDTHS[CONDITION],
        Kind::Effects => WIDTHS[EFFECT],
        Kind::Uses => WIDTHS[USE],
        Kind::Goals => WIDTHS[GOAL],
    }
}

// Puts the record that a note of a role brings.
fn write_row(kind: Kind, role: usize, n: u16, amount: usize, span: Span, at: usize, out: &mut [u8])
    requires { (at + width_of kind ≤ length out.old) × (amount < u32_values) }
    ensures { out.new ≡ sets out.old at (row_noted span.step span.duration kind role n amount) }
{
    match kind {
        Kind::Conditions => write_condition(at, wanted(span, role, n), out),
        Kind::Effects => write_effect(at, set(span, role, n), out),
        Kind::Uses => write_use(at, used(span, role, n, amount), out),
        Kind::Goals => write_goal(at, reached(role, n), out),
    }
}

// Puts the record that a note brings, if any, and hands back where the next one comes.
fn write_note(
    kind: Kind,
    w: u64,
    n: u16,
    amount: usize,
    span: Span,
    at: usize,
    out: &mut [u8],
) -> usize
    requires { (at + length (part_noted span.step span.duration kind w n amount) ≤ length out.old) × (amount < u32_values) }
    ensures { Put out.old at (part_noted span.step span.duration kind w n amount) result out.new }
{
    let role = notes::role(w);
    if brings(kind, role, span.duration) {
        write_row(kind, role, n, amount, span, at, out);
        at + width(kind)
    } else {
        at
    }
}

// Puts those of the notes from a place on, up to the walk's end.
pub fn write_notes(
    kind: Kind,
    noted: Noted,
    from: usize,
    span: Span,
    at: usize,
    out: &mut [u8],
) -> usize
    requires { (from ≤ length noted.said.now)
        × (at + length (parts_from span.step span.duration kind noted.said.now noted.numbers.now from) ≤ length out.old) }
    ensures { Put out.old at
        (parts_from span.step span.duration kind noted.entry.said.now noted.entry.numbers.now from)
        result out.new }
{
    let said = noted.said;
    let mut next = at;
    for k in from..said.len() {
        let w = said[k];
        if !within(kind, w) {
            return next;
        }
        let amount = leading(said, k + 1);
        next = write_note(kind, w, noted.numbers[k], amount, span, next, out);
    }
    next
}

// Puts those of all steps.
pub fn write_planned(
    kind: Kind,
    noted: Noted,
    plan: &[u64],
    acts: &[u16],
    at: usize,
    out: &mut [u8],
) -> usize
    requires { Walked noted.said.now plan.now acts.now
        × (at + length (planned_bytes kind noted.said.now noted.numbers.now plan.now acts.now) ≤ length out.old) }
    ensures { Put out.old at
        (planned_bytes kind noted.entry.said.now noted.entry.numbers.now plan.now acts.now)
        result out.new }
{
    let mut next = at;
    for s in 0..plan.len() / 3 {
        let span = Span {
            step: s as u16,
            duration: lasts(plan, s),
        };
        next = write_notes(kind, noted, usize::from(acts[s]), span, next, out);
    }
    next
}
