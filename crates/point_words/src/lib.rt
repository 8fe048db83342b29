// The word of each condition, effect, timed fact, use and need of a job.
#![tactic(auto)]

ghost use Rattle.job_reader.specs.Seen.{seen, IsLaid};
ghost use Rattle.std.specs.Prelude.{◌≡◌, ◌+◌, ◌<◌};
ghost use Rattle.timeline.specs.Words.{tick_span};
ghost use Rattle.job.specs.WellFormed.{Ranged};
ghost use Rattle.job.specs.Clocked.{clocked};
ghost use Rattle.validity.specs.Ticks.{schedule_of, effect_tick, first_tick, use_tick, need_tick};
ghost use Rattle.point_words.specs.Words.{condition_word, effect_word, use_word, need_word};

pub mod own;

use job_reader::reader::JobReader;
use ticks::start_of;
use timeline::word::word_of;

pub fn condition_word(job: JobReader, starts: &[u32], c: u16) -> u64
    requires { Ranged (seen job) × (c < job.head.count.conditions) × IsLaid job }
    ensures { (result ≡ condition_word (seen job.entry) (schedule_of starts.now) c)
        × (first_tick (seen job.entry) (schedule_of starts.now) c < tick_span) }
{
    let p = job.condition(c);
    let group = job.head.count.facts as usize + p.fact as usize;
    word_of(group, start_of(starts, p.step) + p.from, c, p.value, p.step)
}

pub fn effect_word(job: JobReader, starts: &[u32], e: u16) -> u64
    requires { Ranged (seen job) × (e < job.head.count.effects) × IsLaid job }
    ensures { (result ≡ effect_word (seen job.entry) (schedule_of starts.now) e)
        × (effect_tick (seen job.entry) (schedule_of starts.now) e < tick_span) }
{
    let p = job.effect(e);
    word_of(
        p.fact as usize,
        start_of(starts, p.step) + p.at,
        e,
        p.value,
        p.step,
    )
}

// A timed fact is the clock's effect: its number comes after those of all effects, its step's after those of all steps.
pub fn timed_word(job: JobReader, starts: &[u32], j: u16) -> u64
    requires { Ranged (seen job) × (j < job.head.count.timed) × IsLaid job }
    ensures { (result ≡ effect_word (clocked (seen job.entry)) (schedule_of starts.now) (job.entry.head.count.effects + j))
        × (effect_tick (clocked (seen job.entry)) (schedule_of starts.now) (job.entry.head.count.effects + j) < tick_span) }
{
    let p = job.timed(j);
    let clock = job.head.count.steps;
    let tick = start_of(starts, clock) + p.tick;
    let number = job.head.count.effects + j;
    word_of(p.fact as usize, tick, number, p.value, clock)
}

pub fn use_word(job: JobReader, starts: &[u32], u: u16) -> u64
    requires { Ranged (seen job) × (u < job.head.count.uses) × IsLaid job }
    ensures { (result ≡ use_word (seen job.entry) (schedule_of starts.now) u)
        × (use_tick (seen job.entry) (schedule_of starts.now) u < tick_span) }
{
    let p = job.usage(u);
    let facts = job.head.count.facts as usize;
    word_of(
        facts + facts + p.level as usize,
        start_of(starts, p.step) + p.at,
        u,
        0,
        p.step,
    )
}

pub fn need_word(job: JobReader, starts: &[u32], n: u16) -> u64
    requires { Ranged (seen job) × (n < job.head.count.needs) × IsLaid job }
    ensures { (result ≡ need_word (seen job.entry) (schedule_of starts.now) n)
        × (need_tick (seen job.entry) (schedule_of starts.now) n < tick_span) }
{
    let p = job.need(n);
    let facts = job.head.count.facts as usize;
    let levels = job.head.count.levels as usize;
    word_of(
        facts + facts + levels + p.level as usize,
        start_of(starts, p.step) + p.at,
        n,
        0,
        p.step,
    )
}
