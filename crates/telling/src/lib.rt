// What `pddl` prints: a line that says in words what two texts are answered.
#![tactic(auto)]

ghost use Rattle.std.specs.Prelude.{◌+◌, ◌≤◌, ◌<◌, length};
ghost use Rattle.text.specs.Put.{Put, Written};
ghost use Rattle.telling.specs.Told.{at_line, of_record, unsound, fault, made_line, refused_line, told, fault_most, told_most};

use text::{put_field, put_word};
use texts_answer::{TextsAnswer, TextsRefusal};
use verdict::Refusal;

// The longest line.
pub const LONGEST_LINE: usize = 101;

// Puts words and a line of a text.
fn put_at_line(words: &[u8], line: u16, at: usize, out: &mut [u8]) -> usize
    requires { (at < 1000) × (length words.now + 17 ≤ fault_most) }
    ensures { Put out.old at (at_line words.now line) out.new result × (result ≤ at + fault_most) }
{
    let after = put_word(words, at, out);
    put_field(b", line ", line as usize + 1, after, out)
}

// Puts words and a record of the job.
fn put_of_record(words: &[u8], k: u16, at: usize, out: &mut [u8]) -> usize
    requires { (at < 1000) × (length words.now + 11 ≤ fault_most) }
    ensures { Put out.old at (of_record words.now k) out.new result × (result ≤ at + fault_most) }
{
    let after = put_word(words, at, out);
    put_field(b" ", k as usize, after, out)
}

// Puts what the job check found.
fn put_unsound(r: Refusal, at: usize, out: &mut [u8]) -> usize
    requires { at < 1000 }
    ensures { Put out.old at (unsound r) out.new result × (result ≤ at + fault_most) }
{
    match r {
        Refusal::CountTooHigh => put_word(b"more records than a job can have", at, out),
        Refusal::RecordOutOfRange(k) => put_of_record(
            b"a start, duration or amount out of its range, record",
            k,
            at,
            out,
        ),
        Refusal::StepAgainstItself(k) => put_of_record(b"a step against itself, step", k, at, out),
        Refusal::EffectsConflict(k) => put_of_record(
            b"two steps set a fact both ways at one tick, effect",
            k,
            at,
            out,
        ),
        Refusal::ConditionFails(k) => put_of_record(b"a condition fails, condition", k, at, out),
        Refusal::LevelOutOfBounds(k) => put_of_record(b"a level passes a bound, level", k, at, out),
        Refusal::GoalFails(k) => put_of_record(b"a goal fails, goal", k, at, out),
        _ => put_word(b"the job is refused", at, out),
    }
}

// Puts what is wrong, and where.
fn put_fault(r: TextsRefusal, at: usize, out: &mut [u8]) -> usize
    requires { at < 1000 }
    ensures { Put out.old at (fault r) out.new result × (result ≤ at + fault_most) }
{
    match r {
        TextsRefusal::ActionsOutside(line) => put_at_line(
            b"the actions are too long or cannot go on so",
            line,
            at,
            out,
        ),
        TextsRefusal::ActionsTooDeep(line) => put_at_line(
            b"an (and ..) of the actions is deeper than 16",
            line,
            at,
            out,
        ),
        TextsRefusal::PlanOutside(line) => put_at_line(
            b"the plan is too long or cannot go on so",
            line,
            at,
            out,
        ),
        TextsRefusal::PlanDiffers(line) => put_at_line(
            b"no action of this name and duration, plan",
            line,
            at,
            out,
        ),
        TextsRefusal::Refused(found) => put_unsound(found, at, out),
        TextsRefusal::BufferTooShort => put_word(b"the job is too long", at, out),
    }
}

// Writes the line of a job that was made.
fn write_made(n: u32, out: &mut [u8]) -> usize
    ensures { Written (made_line n) out.old out.new result × (result ≤ told_most) }
{
    let made = put_field(b"a job of ", n as usize, 0, out);
    put_word(b" bytes\n", made, out)
}

// Writes the line of a refusal.
fn write_refused(r: TextsRefusal, out: &mut [u8]) -> usize
    ensures { Written (refused_line r) out.old out.new result × (result ≤ told_most) }
{
    let number = put_field(b"refused ", r.number() as usize, 0, out);
    let place = put_field(b" place ", r.place() as usize, number, out);
    let colon = put_word(b": ", place, out);
    let fault = put_fault(r, colon, out);
    put_word(b"\n", fault, out)
}

// Writes the line of an answer to the front of `out`, and answers how long it is, whether or not there was room for it.
pub fn tell(answer: TextsAnswer, out: &mut [u8]) -> usize
    ensures written { Written (told answer) out.old out.new result }
    ensures upper_bound { result ≤ told_most }
{
    match answer {
        Ok(n) => write_made(n, out),
        Err(refusal) => write_refused(refusal, out),
    }
}
