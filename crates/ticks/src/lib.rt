// Ticks of a job's points under a list of starts. A start past the list's end counts as 0, so nothing is asked of the caller;
// starts are any u32, and sums are made in 64 bits.
#![tactic(auto)]

ghost use Rattle.job_reader.specs.Seen.{seen};
ghost use Rattle.std.specs.Prelude.{◌≡◌, ◌≤◌, ◌<◌, length, take};
ghost use Rattle.laws.specs.Listed.{tabulate};
ghost use Rattle.job.specs.Layout.{most_steps};
ghost use Rattle.validity.specs.Ticks.{schedule_of, effect_tick, last_tick};
ghost use Rattle.timeline.specs.Words.{tick_span};

use job::layout::Job;
use job_reader::reader::JobReader;

pub fn start_of(starts: &[u32], step: u16) -> usize
    ensures { (result ≡ schedule_of starts.now step) × (result < 4294967296) }
{
    match starts.get(usize::from(step)) {
        Some(start) => *start as usize,
        None => 0,
    }
}

pub fn effect_tick(job: JobReader, starts: &[u32], e: u16) -> usize
    ensures { (result ≡ effect_tick (seen job.entry) (schedule_of starts.now) e) × (result < tick_span) }
{
    start_of(starts, job.effect_step(e)) + job.effect_at(e)
}

// The last tick of condition c, by its step.
pub fn last_tick(job: JobReader, starts: &[u32], c: u16, step: u16) -> usize
    requires { step ≡ (seen job).condition_step c }
    ensures { (result ≡ last_tick (seen job.entry) (schedule_of starts.now) c) × (result < tick_span) }
{
    start_of(starts, step) + job.condition_to(c)
}

// The written starts of the first n steps.
pub fn planned_starts(job: JobReader, n: usize) -> [u32; Job::STEPS as usize]
    requires { n ≤ most_steps }
    ensures { (length result ≡ most_steps) × (take n result ≡ tabulate n (seen job.entry).start) }
{
    let mut starts = [0u32; Job::STEPS as usize];
    for k in 0..n {
        starts[k] = job.step_start(k as u16) as u32;
    }
    starts
}
