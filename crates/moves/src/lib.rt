// The start of one step moved beside a timed fact: a limit raised, a latest start lowered.
#![tactic(auto)]

ghost use Rattle.job_reader.specs.Seen.{seen, IsLaid};
ghost use Rattle.std.specs.Prelude.{◌≡◌, ◌+◌, ◌-◌, ◌≤◌, ◌<◌, length};
ghost use Rattle.timeline.specs.Words.{word_step, word_number, word_tick};
ghost use Rattle.job.specs.Model.{last_timed};
ghost use Rattle.validity.specs.Ticks.{schedule_of};
ghost use Rattle.moves.specs.Moved.{Up, Down, Moved, Single, After, Before};
ghost use Rattle.moves.specs.Others.{InTime};

pub mod others;

use job_reader::reader::JobReader;
use ticks::start_of;
use timeline::word::{number_of, step_of, tick_of};

// Raises the limit of a step so that what lies `at` into it does not come before tick `first`.
pub fn raise_limit(step: u16, at: usize, first: usize, limits: &mut [u32])
    requires { (step < length limits.old) × (first ≤ last_timed + 1) }
    ensures { Moved Up (Single step (first - at)) limits.old limits.new }
{
    let k = step as usize;
    let limit = first.saturating_sub(at) as u32;
    limits[k] = limits[k].max(limit);
}

// How far into its step a point lies.
pub fn offset_in(starts: &[u32], word: u64) -> usize
    requires { schedule_of starts.now (word_step word) ≤ word_tick word }
    ensures { result ≡ word_tick word - schedule_of starts.now (word_step word) }
{
    tick_of(word) - start_of(starts, step_of(word))
}

// How far into its step a condition ends that a word names.
pub fn end_in(job: JobReader, word: u64) -> usize
    requires { IsLaid job × (word_number word < job.head.count.conditions) }
    ensures { result ≡ (seen job.entry).condition_to (word_number word) }
{
    job.condition(number_of(word)).to
}

// Rules 2 and 3: a point, an effect or where a condition begins, comes after the last timed fact of another value that it lies after, if
// there is one.
pub fn raise_point(starts: &[u32], word: u64, last: Option<usize>, limits: &mut [u32])
    requires { (word_step word < length limits.old) × (schedule_of starts.now (word_step word) ≤ word_tick word) × InTime last }
    ensures { Moved Up (After last (word_step word) (word_tick word - schedule_of starts.now (word_step word)))
        limits.old limits.new }
{
    if let Some(tick) = last {
        raise_limit(step_of(word), offset_in(starts, word), tick + 1, limits);
    }
}

// Lowers the latest start of a step so that what lies `at` into it comes before tick `next`, if there is one.
pub fn lower_start(step: u16, at: usize, next: Option<usize>, latest: &mut [u32])
    requires { (step < length latest.old) × InTime next }
    ensures { Moved Down (Before next step at) latest.old latest.new }
{
    if let Some(tick) = next {
        let k = step as usize;
        let start = tick.saturating_sub(at).saturating_sub(1) as u32;
        latest[k] = latest[k].min(start);
    }
}
