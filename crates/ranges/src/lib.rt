// What refusal 6 asks of a record: it keeps its ranges and names what is counted.
#![tactic(auto)]

ghost use Rattle.job_reader.specs.Seen.{seen, IsLaid};
ghost use Rattle.std.specs.Prelude.{◌≡◌, List, ℕ, ◌≤◌, ◌<◌};
ghost use Rattle.laws.specs.Search.{first_where};
ghost use Rattle.job.specs.Model.{view};
ghost use Rattle.ranges.specs.Ranges.{fact_ok, level_in_range, level_ok, step_ok, condition_ok, effect_ok, use_ok, goal_ok, timed_ok, need_ok};
ghost use Rattle.ranges.specs.Ranges.{record_ok, record_broken, count_in};

use job::layout::{
    HIGHEST_AMOUNT, HIGHEST_LEVEL, Job, LAST_DEADLINE, LAST_START, LAST_TIMED, LONGEST,
    LOWEST_AMOUNT, LOWEST_LEVEL, Table,
};
use job::records::NO_DEADLINE;
use job_reader::reader::JobReader;
use little_endian::SIGN_BIAS;

fn fact_ok(job: JobReader, k: u16) -> bool
    ensures { result ≡ fact_ok (seen job.entry) k }
{
    job.fact_initial(k) <= 1
}

fn level_in_range(n: usize) -> bool
    ensures { result ≡ level_in_range n }
{
    (LOWEST_LEVEL <= n) & (n <= HIGHEST_LEVEL)
}

fn level_ok(job: JobReader, k: u16) -> bool
    ensures { result ≡ level_ok (seen job.entry) k }
{
    let level = job.level(k);
    level_in_range(level.initial)
        & level_in_range(level.least)
        & level_in_range(level.most)
        & (level.least <= level.initial)
        & (level.initial <= level.most)
}

fn step_ok(job: JobReader, k: u16) -> bool
    ensures { result ≡ step_ok (seen job.entry) k }
{
    let step = job.step(k);
    (step.start <= LAST_START) & (step.length <= LONGEST) & (step.fixed <= 1)
}

fn condition_ok(job: JobReader, k: u16) -> bool
    requires { IsLaid job × (k < job.head.count.conditions) }
    ensures { result ≡ condition_ok (seen job.entry) k }
{
    let c = job.condition(k);
    if job.head.count.steps <= c.step {
        return false;
    }
    (c.fact < job.head.count.facts)
        & (c.from <= c.to)
        & (c.to <= job.length_within(c.step))
        & (c.value <= 1)
}

fn effect_ok(job: JobReader, k: u16) -> bool
    requires { IsLaid job × (k < job.head.count.effects) }
    ensures { result ≡ effect_ok (seen job.entry) k }
{
    let e = job.effect(k);
    if job.head.count.steps <= e.step {
        return false;
    }
    (e.fact < job.head.count.facts) & (e.at <= job.length_within(e.step)) & (e.value <= 1)
}

fn use_ok(job: JobReader, k: u16) -> bool
    requires { IsLaid job × (k < job.head.count.uses) }
    ensures { result ≡ use_ok (seen job.entry) k }
{
    let u = job.usage(k);
    if job.head.count.steps <= u.step {
        return false;
    }
    (u.level < job.head.count.levels)
        & (u.at <= job.length_within(u.step))
        & (LOWEST_AMOUNT <= u.amount)
        & (u.amount <= HIGHEST_AMOUNT)
        & (u.amount != SIGN_BIAS)
}

fn goal_ok(job: JobReader, k: u16) -> bool
    ensures { result ≡ goal_ok (seen job.entry) k }
{
    let goal = job.goal(k);
    (goal.fact < job.head.count.facts)
        & (goal.value <= 1)
        & ((goal.deadline <= LAST_DEADLINE) | (goal.deadline == NO_DEADLINE))
}

fn timed_ok(job: JobReader, k: u16) -> bool
    requires { IsLaid job × (k < job.head.count.timed) }
    ensures { result ≡ timed_ok (seen job.entry) k }
{
    let timed = job.timed(k);
    (timed.fact < job.head.count.facts) & (timed.tick <= LAST_TIMED) & (timed.value <= 1)
}

fn need_ok(job: JobReader, k: u16) -> bool
    requires { IsLaid job × (k < job.head.count.needs) }
    ensures { result ≡ need_ok (seen job.entry) k }
{
    let n = job.need(k);
    if job.head.count.steps <= n.step {
        return false;
    }
    (n.level < job.head.count.levels)
        & (n.at <= job.length_within(n.step))
        & level_in_range(n.least)
}

fn record_ok(job: JobReader, table: Table, k: u16) -> bool
    requires { IsLaid job × (k < count_in (seen job) table) }
    ensures { result ≡ record_ok (seen job.entry) table k }
{
    match table {
        Table::Facts => fact_ok(job, k),
        Table::Levels => level_ok(job, k),
        Table::Steps => step_ok(job, k),
        Table::Conditions => condition_ok(job, k),
        Table::Effects => effect_ok(job, k),
        Table::Uses => use_ok(job, k),
        Table::Goals => goal_ok(job, k),
        Table::TimedFacts => timed_ok(job, k),
        Table::Needs => need_ok(job, k),
    }
}

// How many records a table has.
pub fn count_in(job: Job, table: Table) -> u16
    ensures { (s : List ℕ) → result ≡ count_in (view job s) table }
{
    match table {
        Table::Facts => job.count.facts,
        Table::Levels => job.count.levels,
        Table::Steps => job.count.steps,
        Table::Conditions => job.count.conditions,
        Table::Effects => job.count.effects,
        Table::Uses => job.count.uses,
        Table::Goals => job.count.goals,
        Table::TimedFacts => job.count.timed,
        Table::Needs => job.count.needs,
    }
}

// The lowest of the first n records of a table that is broken, if one is. Inlined with its caller, it is a loop for each table.
#[inline(always)]
pub fn first_broken(job: JobReader, table: Table, n: u16) -> Option<u16>
    requires { IsLaid job × (n ≤ count_in (seen job) table) }
    ensures { result ≡ first_where n (record_broken (seen job.entry) table) }
{
    for k in 0..n {
        if !record_ok(job, table, k) {
            return Some(k);
        }
    }
    None
}
