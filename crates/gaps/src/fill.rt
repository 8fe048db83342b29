// The table of gaps, filled rule by rule (orders, rules 1 to 4). Of several gaps for one entry the largest stays.
ghost use Rattle.points.specs.Timelines.{model, schedule};
ghost use Rattle.job_reader.specs.Seen.{seen, IsLaid};
ghost use Rattle.std.specs.Prelude.{◌≡◌, ℕ, ◌+◌, ◌≤◌, ◌<◌, List, length};
ghost use Rattle.job.specs.Model.{view};
ghost use Rattle.job.specs.Clocked.{clocked};
ghost use Rattle.validity.specs.Ticks.{schedule_of};
ghost use Rattle.orders.specs.Gaps.{support_order, support_gap, opposing_gap, condition_gap, level_gap, gap_of};
ghost use Rattle.order_file.specs.Table.{Gaps, row_width, table_size};
ghost use Rattle.gaps.specs.Table.{Fillable, TableOf};
ghost use Rattle.origins.specs.Raised.{Raised};
ghost use Rattle.gaps.specs.Rules.{Cleared, SupportKnown, RaisedByLinks, ValidPoints, fact_at};

use crate::needs::fill_needs;
use job::layout::Job;
use job_reader::reader::JobReader;
use order_file::table::{NO_ORDER, WIDTH};
use origins::{Fact, raise, strictly};
use points::timelines::Timeline;
use rows::{raise_among, raise_conditions, raise_setters};
use timeline::word::begin_at;

// Rule 1 for condition c, by its link. One to the initial state or to a timed fact, which are numbered behind the effects, orders no two steps.
fn raise_support(job: JobReader, links: &[u16], c: u16, gaps: &mut [u32])
    requires { SupportKnown (seen job) links.now gaps.old × (c < job.head.count.conditions) × IsLaid job }
    ensures raised_by_links { RaisedByLinks (clocked (seen job.entry)) links.now (λ m x i k. support_order m x i k c)
        gaps.old gaps.new }
    ensures gaps { Gaps gaps.new }
{
    let effects = job.head.count.effects;
    let link = links[c as usize];
    let of_clock = link >= effects;
    if of_clock {
        return;
    }
    let condition = job.condition(c);
    let effect = job.effect(link);
    raise(
        effect.step,
        condition.step,
        strictly(effect.at, condition.from),
        gaps,
    )
}

// Rule 1.
fn fill_support(job: JobReader, links: &[u16], gaps: &mut [u32])
    requires { SupportKnown (seen job) links.now gaps.old × IsLaid job }
    ensures { RaisedByLinks (clocked (seen job.entry)) links.now support_gap gaps.old gaps.new }
{
    let n = job.head.count.conditions;
    for c in 0..n {
        raise_support(job, links, c, gaps);
    }
}

// Rule 2 for each fact.
fn fill_opposing(timeline: Timeline, gaps: &mut [u32])
    requires { (s : List ℕ) × ValidPoints (view timeline.job.head s) (schedule timeline) timeline.points.now timeline.begins.now
        × Gaps gaps.old
        × (timeline.job.head.count.steps ≤ length timeline.starts.now) }
    ensures { (s : List ℕ) → ValidPoints (view timeline.entry.job.head s) (schedule timeline.entry) timeline.entry.points.now timeline.entry.begins.now
        → Raised timeline.entry.job.head.count.steps (opposing_gap (view timeline.entry.job.head s) (schedule timeline.entry)) gaps.old gaps.new }
{
    let Timeline {
        job: JobReader { head: job, .. },
        starts,
        points,
        begins,
    } = timeline;
    let n = job.count.facts as usize;
    let steps = job.count.steps as usize;
    for f in 0..n {
        let low = begin_at(begins, f);
        let high = begin_at(begins, f + 1);
        raise_setters(steps, starts, points, low, high, gaps);
    }
}

// The places of fact f, of so many.
fn places_of(begins: &[u16], facts: usize, f: usize) -> Fact
    requires { (f < facts) × (facts + facts < length begins.now) × (facts < 65536) }
    ensures { result ≡ fact_at begins.now facts f }
{
    Fact {
        low: begin_at(begins, f),
        high: begin_at(begins, f + 1),
        after: begin_at(begins, facts + f),
        until: begin_at(begins, facts + f + 1),
    }
}

// Rule 3 for each fact.
fn fill_conditions(timeline: Timeline, gaps: &mut [u32])
    requires { ValidPoints (seen timeline.job) (schedule timeline) timeline.points.now timeline.begins.now × Gaps gaps.old
        × (timeline.job.head.count.steps ≤ length timeline.starts.now) }
    ensures { Raised timeline.entry.job.head.count.steps (condition_gap (seen timeline.entry.job) (schedule timeline.entry))
        gaps.old gaps.new }
{
    let Timeline {
        job,
        starts,
        points,
        begins,
    } = timeline;
    let n = job.head.count.facts as usize;
    for f in 0..n {
        let fact = places_of(begins, n, f);
        raise_conditions(job, starts, points, fact, gaps);
    }
}

// Rule 4 for each level.
fn fill_levels(timeline: Timeline, gaps: &mut [u32])
    requires { (s : List ℕ) × ValidPoints (view timeline.job.head s) (schedule timeline) timeline.points.now timeline.begins.now
        × Gaps gaps.old
        × (timeline.job.head.count.steps ≤ length timeline.starts.now) }
    ensures { (s : List ℕ) → ValidPoints (view timeline.entry.job.head s) (schedule timeline.entry) timeline.entry.points.now timeline.entry.begins.now
        → Raised timeline.entry.job.head.count.steps (level_gap (view timeline.entry.job.head s) (schedule timeline.entry)) gaps.old gaps.new }
{
    let Timeline {
        job: JobReader { head: job, .. },
        starts,
        points,
        begins,
    } = timeline;
    let facts = job.count.facts as usize;
    let n = job.count.levels as usize;
    let steps = job.count.steps as usize;
    for l in 0..n {
        let used = facts + facts + l;
        let low = begin_at(begins, used);
        let high = begin_at(begins, used + 1);
        raise_among(steps, starts, points, low, high, gaps);
    }
}

// Clears the entry of each step with itself: only different steps are ordered. The rules raise these entries too, which spares them a test.
fn clear_own(gaps: &mut [u32])
    requires { length gaps.old ≡ table_size }
    ensures { Cleared row_width gaps.old gaps.new }
{
    for i in 0..WIDTH {
        gaps[WIDTH * i + i] = NO_ORDER;
    }
}

// All rules, one after the other, into an empty table.
pub fn fill_gaps(timeline: Timeline, links: &[u16], gaps: &mut [u32])
    requires { Fillable (seen timeline.job) (schedule timeline) timeline.points.now timeline.begins.now links.now gaps.old
        × IsLaid timeline.job
        × (timeline.job.head.count.steps ≤ length timeline.starts.now) }
    ensures { TableOf timeline.entry.job.head.count.steps (gap_of (model timeline.entry) (schedule timeline.entry)) gaps.new }
{
    let Timeline { job, .. } = timeline;
    fill_support(job, links, gaps);
    fill_opposing(timeline, gaps);
    fill_conditions(timeline, gaps);
    fill_levels(timeline, gaps);
    fill_needs(timeline, gaps);
    clear_own(gaps);
}
