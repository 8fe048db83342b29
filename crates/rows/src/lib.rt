// Orders between groups of points, into the table of gaps: pair by pair, or a row of the table for each point. No rule.
#![tactic(auto)]

ghost use Rattle.job_reader.specs.Seen.{seen};
ghost use Rattle.std.specs.Prelude.{◌≤◌};
ghost use Rattle.validity.specs.Ticks.{schedule_of};
ghost use Rattle.order_file.specs.Table.{Gaps};
ghost use Rattle.origins.specs.declared.Turn.TheVariants.{Same, Other};
ghost use Rattle.origins.specs.Points.{Group, ValuesApart, FactKnown, Reached, FactOrder, FromPoints, Between};
ghost use Rattle.order_file.specs.Contents.{step_limit};

mod pairs;
mod rows;

use job_reader::reader::JobReader;
use origins::{Fact, Span, Turn};
use pairs::{pair_among, pair_conditions};
use rows::{row_conditions, row_points, row_setters};

// From how many points on a row is cheaper than the pairs.
const MANY: usize = 8;

// Orders the setters of a fact among themselves: each before the later ones of the other value.
pub fn raise_setters(
    n: usize,
    starts: &[u32],
    points: &[u64],
    low: usize,
    high: usize,
    gaps: &mut [u32],
)
    requires { Gaps gaps.old × (n ≤ step_limit) × Group n starts.now points.now low high
        × ValuesApart points.now low high }
    ensures { Reached n (FromPoints (schedule_of starts.now) points.now low high Other)
        gaps.old gaps.new }
{
    if high - low < MANY {
        pair_among(starts, points, low, high, Turn::Other, gaps);
    } else {
        row_setters(n, starts, points, low, high, gaps);
    }
}

// Orders the points of a group among themselves: each before the later ones of the same value.
pub fn raise_among(
    n: usize,
    starts: &[u32],
    points: &[u64],
    low: usize,
    high: usize,
    gaps: &mut [u32],
)
    requires { Gaps gaps.old × (n ≤ step_limit) × Group n starts.now points.now low high }
    ensures { Reached n (FromPoints (schedule_of starts.now) points.now low high Same)
        gaps.old gaps.new }
{
    if high - low < MANY {
        pair_among(starts, points, low, high, Turn::Same, gaps);
    } else {
        let group = Span { low, high };
        row_points(n, starts, points, group, group, Turn::Same, gaps);
    }
}

// Orders the conditions of a fact and its setters of the other value.
pub fn raise_conditions(
    job: JobReader,
    starts: &[u32],
    points: &[u64],
    fact: Fact,
    gaps: &mut [u32],
)
    requires { FactKnown (seen job) starts.now points.now fact × Gaps gaps.old }
    ensures { Reached job.entry.head.count.steps
        (FactOrder (seen job.entry) (schedule_of starts.now) points.now fact)
        gaps.old gaps.new }
{
    if fact.high - fact.low < MANY {
        pair_conditions(job, starts, points, fact, gaps);
    } else {
        let n = job.head.count.steps as usize;
        let setters = Span {
            low: fact.low,
            high: fact.high,
        };
        let wanted = Span {
            low: fact.after,
            high: fact.until,
        };
        row_points(n, starts, points, setters, wanted, Turn::Other, gaps);
        row_conditions(job, starts, points, fact, gaps);
    }
}

// Orders the points of two groups with each other: each before the later ones of the other group of the same value.
pub fn raise_between(
    n: usize,
    starts: &[u32],
    points: &[u64],
    first: Span,
    second: Span,
    gaps: &mut [u32],
)
    requires { Gaps gaps.old × (n ≤ step_limit) × Group n starts.now points.now first.low first.high
        × Group n starts.now points.now second.low second.high }
    ensures { Reached n (Between (schedule_of starts.now) points.now first second)
        gaps.old gaps.new }
{
    if (first.low < first.high) & (second.low < second.high) {
        row_points(n, starts, points, first, second, Turn::Same, gaps);
        row_points(n, starts, points, second, first, Turn::Same, gaps);
    }
}
