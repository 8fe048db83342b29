// The file of the job that the notes of two texts say.
ghost use Rattle.std.specs.Prelude.{◌≡◌, ℕ, ◌+◌, ◌*◌, ◌/◌, ◌≤◌, ◌<◌, length, get_or};
ghost use Rattle.laws.specs.Listed.{concatenate};
ghost use Rattle.little_endian.specs.Bytes.{u32_values};
ghost use Rattle.job.specs.Layout.{most_facts, most_levels};
ghost use Rattle.job_encoding.specs.Encode.{encode};
ghost use Rattle.job_notes.specs.Tables.{start_noted};
ghost use Rattle.order_file.specs.Held.{over};
ghost use Rattle.supplied.specs.Job.{model_in};
ghost use Rattle.job_from_notes.specs.Brought.{goal_bytes};
ghost use Rattle.job_from_notes.specs.Counted.{tables_in};
ghost use Rattle.job_from_notes.specs.Putting.{Put};
ghost use Rattle.job_from_notes.specs.TableBytes.{byte_in, level_in, given_bytes, stock_bytes, step_bytes};
ghost use Rattle.job_from_notes.specs.Whole.{Writable};

use crate::brought::{Kind, lasts, number};
use crate::entries::{Span, write_notes, write_planned};
use crate::noted::Noted;
use crate::opening::{Opening, find_stated};
use job::layout::{Counts, HIGHEST_LEVEL, Job, LEVEL, SHORTEST_HEADER, STEP, WIDTHS};
use job::records::{Level, Step};
use job_writer::{write_header, write_level, write_step};
use little_endian::{SIGN_BIAS, put_byte};

// The bytes of the longest job.
pub const LONGEST_JOB: usize = 16752;

// Puts the first facts of a list, and hands back where the next table comes.
fn write_facts(facts: usize, list: &[usize], at: usize, out: &mut [u8]) -> usize
    requires { (at + length (concatenate facts (byte_in list.now)) ≤ length out.old) × (facts ≤ length list.now)
        × ((f : ℕ) → f < facts → get_or list.now f 0 < 256) }
    ensures { Put out.old at (concatenate facts (byte_in list.now)) result out.new }
{
    let mut next = at;
    for f in 0..facts {
        put_byte(next, list[f] as u8, out);
        next += 1;
    }
    next
}

// Puts levels that begin with the first amounts of a list.
fn write_levels(levels: usize, list: &[usize], at: usize, out: &mut [u8]) -> usize
    requires { (at + length (concatenate levels (level_in list.now)) ≤ length out.old) × (levels ≤ length list.now)
        × ((l : ℕ) → l < levels → get_or list.now l 0 < u32_values) }
    ensures { Put out.old at (concatenate levels (level_in list.now)) result out.new }
{
    let mut next = at;
    for l in 0..levels {
        let level = Level {
            initial: SIGN_BIAS + list[l],
            least: SIGN_BIAS,
            most: HIGHEST_LEVEL,
        };
        write_level(next, level, out);
        next += WIDTHS[LEVEL];
    }
    next
}

// Puts what the text says of the first facts.
fn write_given(noted: Noted, facts: usize, at: usize, out: &mut [u8]) -> usize
    requires { (facts ≤ most_facts) × (at + length (given_bytes facts noted.said.now noted.numbers.now) ≤ length out.old) }
    ensures { Put out.old at (given_bytes facts noted.entry.said.now noted.entry.numbers.now) result out.new }
{
    let mut list = [0; Job::FACTS as usize];
    find_stated(Opening::Fact, noted, &mut list);
    write_facts(facts, &list, at, out)
}

// Puts what it says of the first levels.
fn write_stocks(noted: Noted, levels: usize, at: usize, out: &mut [u8]) -> usize
    requires { (levels ≤ most_levels) × (at + length (stock_bytes levels noted.said.now noted.numbers.now) ≤ length out.old) }
    ensures { Put out.old at (stock_bytes levels noted.entry.said.now noted.entry.numbers.now) result out.new }
{
    let mut list = [0; Job::LEVELS as usize];
    find_stated(Opening::Level, noted, &mut list);
    write_levels(levels, &list, at, out)
}

// When a step starts: the first note of its line.
fn starts(plan: &[u64], s: usize) -> usize
    requires { s < length plan.now / 3 }
    ensures { result ≡ start_noted plan.now s }
{
    number(plan[3 * s])
}

// Puts the steps of a plan.
fn write_steps(plan: &[u64], at: usize, out: &mut [u8]) -> usize
    requires { at + length (step_bytes plan.now) ≤ length out.old }
    ensures { Put out.old at (step_bytes plan.now) result out.new }
{
    let mut next = at;
    for s in 0..plan.len() / 3 {
        let step = Step {
            start: starts(plan, s),
            length: lasts(plan, s),
            fixed: 0,
        };
        write_step(next, step, out);
        next += WIDTHS[STEP];
    }
    next
}

// Puts the goals.
fn write_goals(noted: Noted, at: usize, out: &mut [u8]) -> usize
    requires { at + length (goal_bytes noted.said.now noted.numbers.now) ≤ length out.old }
    ensures { Put out.old at (goal_bytes noted.entry.said.now noted.entry.numbers.now) result out.new }
{
    let span = Span {
        step: 0,
        duration: 0,
    };
    write_notes(Kind::Goals, noted, 0, span, at, out)
}

// Writes the file of the job, and answers its length; the bytes past its end stay.
pub fn write_job(
    said: &[u64],
    numbers: &[u16],
    plan: &[u64],
    acts: &[u16],
    count: Counts,
    out: &mut [u8],
) -> usize
    requires { Writable said.now numbers.now plan.now acts.now count out.old }
    ensures value { result
        ≡ length
        (encode 1
        (model_in
        (tables_in count.facts count.levels said.now numbers.now plan.now acts.now))) }
    ensures out_after { out.new
        ≡ over
        (encode 1
        (model_in
        (tables_in count.facts count.levels said.now numbers.now plan.now acts.now)))
        out.old }
{
    let noted = Noted { said, numbers };
    write_header(count, out);
    let levels = write_given(noted, count.facts as usize, SHORTEST_HEADER, out);
    let steps = write_stocks(noted, count.levels as usize, levels, out);
    let conditions = write_steps(plan, steps, out);
    let effects = write_planned(Kind::Conditions, noted, plan, acts, conditions, out);
    let uses = write_planned(Kind::Effects, noted, plan, acts, effects, out);
    let goals = write_planned(Kind::Uses, noted, plan, acts, uses, out);
    write_goals(noted, goals, out)
}
