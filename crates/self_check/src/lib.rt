// Refusal 7: a step against itself. Whether it sets a fact both ways is what the search by pairs finds; whether it opposes its own condition
// or uses a level twice is found in one pass over the effects and one over the uses. Each record walks an index, so that it meets only those
// of its own step and fact or level, and the few others that share the key. The field that most often tells two such records apart is read
// first. Refusal 17, the clock against itself, is in `clock`.
#![tactic(auto)]

ghost use Rattle.job_reader.specs.Seen.{seen, IsLaid};
ghost use Rattle.std.specs.Prelude.{◌≡◌, ◌&&◌, cond, ℕ, ◌≤◌, ◌<◌, ltb};
ghost use Rattle.job.specs.Model.{effect_of};
ghost use Rattle.job.specs.WellFormed.{Ranged};
ghost use Rattle.self_check.specs.Keys.{step_key, condition_key, use_key, SearchBack};
ghost use Rattle.timeline.specs.Indexed.{key_count, capacity, Growing};
ghost use Rattle.against.specs.Against.{uses_twice, opposes_own, used_before, opposes_any, uses_twice_step, opposes_own_step, step_check};

pub mod clock;

use job::records::Effect;
use job_reader::reader::JobReader;
use pair_search::search_pairs;
use timeline::index::{INDEX_SIZE, KEYS, UNLINKED, before_of, last_of, link};
use verdict::{Refusal, Verdict};

// The key of a step with a fact or level.
fn step_key(step: u16, what: u16) -> usize
    ensures { (result ≡ step_key step what) × (result < key_count) }
{
    (8 * step as usize + what as usize) % KEYS
}

fn uses_twice(job: JobReader, u: u16, v: u16) -> bool
    ensures { result ≡ uses_twice (seen job.entry) u v }
{
    if job.use_at(u) != job.use_at(v) {
        return false;
    }
    (job.use_step(u) == job.use_step(v)) & (job.use_level(u) == job.use_level(v))
}

// Whether e, if it is effect k, opposes c.
fn opposes_own(job: JobReader, e: Effect, c: u16) -> bool
    ensures { (k : ℕ) → e ≡ effect_of (seen job.entry) k → result ≡ opposes_own (seen job.entry) k c }
{
    if e.fact != job.condition_fact(c) {
        return false;
    }
    if e.value == job.condition_value(c) {
        return false;
    }
    (e.step == job.condition_step(c))
        & (job.condition_from(c) <= e.at)
        & (e.at < job.condition_to(c))
}

// Whether a use before u uses u's level in u's step at u's tick.
fn used_before(job: JobReader, index: &[u16], key: usize, u: u16) -> bool
    requires { SearchBack (use_key (seen job)) u (use_key (seen job) u) key index.now }
    ensures { result ≡ used_before (seen job.entry) u }
{
    let mut v = last_of(index, key);
    // A walk along links has no range to go through.
    while v < u {
        if uses_twice(job, u, v) {
            return true;
        }
        v = before_of(index, v);
    }
    false
}

// Whether e, if it is effect k, opposes a condition of its own step before that condition's last tick.
fn opposes_any(job: JobReader, index: &[u16], key: usize, e: Effect) -> bool
    requires { SearchBack (condition_key (seen job)) job.head.count.conditions (step_key e.step e.fact) key index.now }
    ensures { (k : ℕ) → e ≡ effect_of (seen job.entry) k → result ≡ opposes_any (seen job.entry) k }
{
    let n = job.head.count.conditions;
    let mut c = last_of(index, key);
    // A walk along links has no range to go through.
    while c < n {
        if opposes_own(job, e, c) {
            return true;
        }
        c = before_of(index, c);
    }
    false
}

fn lower_if(found: bool, step: u16, best: u16) -> u16
    ensures { result ≡ cond (found && ltb step best) step best }
{
    if found & (step < best) { step } else { best }
}

// Links the conditions by their step and fact.
fn link_conditions(job: JobReader, index: &mut [u16; INDEX_SIZE])
    requires { Growing (condition_key (seen job)) 0 index.old × (job.head.count.conditions ≤ capacity) }
    ensures { Growing (condition_key (seen job.entry)) job.entry.head.count.conditions index.new }
{
    let n = job.head.count.conditions;
    for c in 0..n {
        let key = step_key(job.condition_step(c), job.condition_fact(c));
        link(key, c, index);
    }
}

// The lowest step that opposes its own condition before its last tick, or the count of steps.
fn effects_against(job: JobReader) -> u16
    requires { IsLaid job × Ranged (seen job) }
    ensures { result ≡ opposes_own_step (seen job.entry) }
{
    let mut index = [UNLINKED; INDEX_SIZE];
    link_conditions(job, &mut index);
    let mut best = job.head.count.steps;
    let n = job.head.count.effects;
    for k in 0..n {
        let e = job.effect(k);
        let key = step_key(e.step, e.fact);
        let found = opposes_any(job, &index, key, e);
        best = lower_if(found, e.step, best);
    }
    best
}

// The lowest step that uses a level twice at one tick, or the count of steps. Without uses no index is made.
fn uses_against(job: JobReader) -> u16
    requires { Ranged (seen job) }
    ensures { result ≡ uses_twice_step (seen job.entry) }
{
    let n = job.head.count.uses;
    if n == 0 {
        return job.head.count.steps;
    }
    let mut index = [UNLINKED; INDEX_SIZE];
    let mut best = job.head.count.steps;
    for u in 0..n {
        let step = job.use_step(u);
        let key = step_key(step, job.use_level(u));
        let found = used_before(job, &index, key, u);
        best = lower_if(found, step, best);
        link(key, u, &mut index);
    }
    best
}

// Refusal 7, of a file that refusals 1 to 6 pass.
pub fn check_steps(job: JobReader) -> Verdict
    requires { IsLaid job × Ranged (seen job) }
    ensures { result ≡ step_check (seen job.entry) }
{
    let pairs = search_pairs(job);
    let uses = uses_against(job);
    let effects = effects_against(job);
    let step = pairs.step.min(uses).min(effects);
    let n = job.head.count.steps;
    if step < n {
        return Err(Refusal::StepAgainstItself(step));
    }
    Ok(())
}
