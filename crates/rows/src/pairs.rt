// Orders between points, pair by pair.
ghost use Rattle.job_reader.specs.Seen.{seen};
ghost use Rattle.std.specs.Prelude.{ℕ, ◌≤◌, ◌<◌};
ghost use Rattle.job.specs.Model.{longest};
ghost use Rattle.validity.specs.Ticks.{schedule_of};
ghost use Rattle.timeline.specs.Words.{word_step};
ghost use Rattle.order_file.specs.Table.{Gaps, row_width};
ghost use Rattle.origins.specs.Points.{OriginKnown, Group, Notable, FactKnown, Reached, Onto, After, Beside, Around, FactOrder, FromPoints};
ghost use Rattle.order_file.specs.Contents.{step_limit};

use job_reader::reader::JobReader;
use origins::{Fact, Origin, Turn, last_origin, offset_of, point_origin, raise, strictly};
use std::hint::select_unpredictable;
use timeline::word::{step_of, tick_of, value_of};

// Orders a point after the origin, if it has the value and is not before the tick.
fn raise_onto(starts: &[u32], origin: Origin, word: u64, gaps: &mut [u32])
    requires { Gaps gaps.old × OriginKnown row_width origin × Notable starts.now word }
    ensures { (n : ℕ) → n ≤ step_limit → origin.step < n → word_step word < n
        → Reached n (Onto (schedule_of starts.now) origin word) gaps.old gaps.new }
{
    if (value_of(word) == origin.value) & (origin.tick <= tick_of(word)) {
        let entry = strictly(origin.at, offset_of(starts, word));
        raise(origin.step, step_of(word), entry, gaps);
    }
}

// Orders the points from place `low` up to `high` after the origin.
fn raise_after(
    starts: &[u32],
    points: &[u64],
    origin: Origin,
    low: usize,
    high: usize,
    gaps: &mut [u32],
)
    requires { Gaps gaps.old × OriginKnown row_width origin × Group row_width starts.now points.now low high }
    ensures { (n : ℕ) → n ≤ step_limit → origin.step < n → Group n starts.now points.now low high
        → Reached n (After (schedule_of starts.now) points.now low high origin) gaps.old gaps.new }
{
    for &word in &points[low..high] {
        raise_onto(starts, origin, word, gaps);
    }
}

// Orders a setter of the value before the origin's condition, which begins `from` into its step, or after it. Which of the two comes first is
// as good as random, so the code selects and does not branch.
fn raise_beside(starts: &[u32], origin: Origin, from: usize, word: u64, gaps: &mut [u32])
    requires { Gaps gaps.old × OriginKnown row_width origin × (from ≤ longest) × Notable starts.now word }
    ensures { Reached row_width (Beside (schedule_of starts.now) origin from word) gaps.old gaps.new }
{
    if value_of(word) == origin.value {
        let step = step_of(word);
        let at = offset_of(starts, word);
        let before = tick_of(word) < origin.tick;
        let i = select_unpredictable(before, step, origin.step);
        let k = select_unpredictable(before, origin.step, step);
        let p = select_unpredictable(before, at, origin.at);
        let q = select_unpredictable(before, from, at);
        raise(i, k, strictly(p, q), gaps);
    }
}

// The same for the setters from place `low` up to `high`.
fn raise_around(
    starts: &[u32],
    points: &[u64],
    origin: Origin,
    from: usize,
    low: usize,
    high: usize,
    gaps: &mut [u32],
)
    requires { Gaps gaps.old × OriginKnown row_width origin × (from ≤ longest)
        × Group row_width starts.now points.now low high }
    ensures { Reached row_width (Around (schedule_of starts.now) points.now low high origin from)
        gaps.old gaps.new }
{
    for &word in &points[low..high] {
        raise_beside(starts, origin, from, word, gaps);
    }
}

// Each condition after or before each setter of the other value.
pub fn pair_conditions(job: JobReader, starts: &[u32], points: &[u64], fact: Fact, gaps: &mut [u32])
    requires { FactKnown (seen job) starts.now points.now fact × Gaps gaps.old }
    ensures { Reached job.entry.head.count.steps
        (FactOrder (seen job.entry) (schedule_of starts.now) points.now fact)
        gaps.old gaps.new }
{
    for &word in &points[fact.after..fact.until] {
        let origin = last_origin(job, word);
        let from = offset_of(starts, word);
        raise_around(starts, points, origin, from, fact.low, fact.high, gaps);
    }
}

// Each point before the later ones of the other value or of the same, by `turn`. What stands before it in its group is not later.
pub fn pair_among(
    starts: &[u32],
    points: &[u64],
    low: usize,
    high: usize,
    turn: Turn,
    gaps: &mut [u32],
)
    requires { Gaps gaps.old × Group row_width starts.now points.now low high }
    ensures { (n : ℕ) → n ≤ step_limit → Group n starts.now points.now low high
        → Reached n (FromPoints (schedule_of starts.now) points.now low high turn) gaps.old gaps.new }
{
    for p in low..high {
        let origin = point_origin(starts, points[p], turn);
        raise_after(starts, points, origin, p + 1, high, gaps);
    }
}
