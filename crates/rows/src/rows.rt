// Orders between points, a row of the table for each point. Going back in time, what lies far enough ahead only grows, and of a step only its
// largest lead matters.
ghost use Rattle.job_reader.specs.Seen.{seen};
ghost use Rattle.std.specs.Prelude.{◌≡◌, ℕ, ◌≤◌};
ghost use Rattle.validity.specs.Ticks.{schedule_of};
ghost use Rattle.order_file.specs.Table.{Gaps, row_width};
ghost use Rattle.origins.specs.declared.Turn.TheVariants.{Other};
ghost use Rattle.origins.specs.Points.{OriginKnown, Group, ValuesApart, FactKnown, Reached, FromPoints, FromTo, FromConditions};
ghost use Rattle.origins.specs.Points.{Notable, Noting, NotedBack, leads_with, LeadsKnown, RowKnown, Rowed, due_at, Ahead};
ghost use Rattle.order_file.specs.Contents.{step_limit};

use job_reader::reader::JobReader;
use order_file::table::{WIDTH, higher};
use origins::{AT_START, Fact, Origin, Span, Turn, last_origin, offset_of, point_origin};
use timeline::word::{VALUE_SPAN, step_of, tick_of, value_of};

// A lead for each value and step.
const LEADS: usize = VALUE_SPAN as usize * WIDTH;

// The lead of a step of which nothing lies ahead.
const NO_LEAD: u32 = 0;

// Of more steps than this rows are raised whole: a loop whose length the compiler knows costs less than the entries past the last step.
const MANY_STEPS: usize = WIDTH / 2;

// Notes a point. Going back in time, it lies no further into its step than what is noted of that, so its lead is the largest.
fn note(starts: &[u32], word: u64, leads: &mut [u32; LEADS])
    requires { Notable starts.now word }
    ensures { leads.new ≡ leads_with (schedule_of starts.now) word leads.old }
{
    let k = WIDTH * value_of(word) as usize + step_of(word) as usize;
    leads[k] = (AT_START - offset_of(starts, word)) as u32;
}

// Notes the points of a group back to tick t.
fn note_from(
    starts: &[u32],
    points: &[u64],
    low: usize,
    noted: usize,
    t: usize,
    leads: &mut [u32; LEADS],
) -> usize
    requires { (high : ℕ) × Noting starts.now points.now low high noted t leads.old }
    ensures { (high : ℕ) → Noting starts.now points.now low high noted t leads.old
        → NotedBack (schedule_of starts.now) points.now low high t result leads.new }
{
    for p in (low..noted).rev() {
        let word = points[p];
        if tick_of(word) < t {
            return p + 1;
        }
        note(starts, word, leads);
    }
    low
}

// Raises the first n entries of a row by leads, each `at` further. Each call has a copy, so that the compiler knows a length that is constant.
#[inline(always)]
fn raise_part(n: usize, row: usize, ahead: usize, at: u32, leads: &[u32; LEADS], gaps: &mut [u32])
    requires { (n ≤ row_width) × RowKnown row ahead at leads.now gaps.old }
    ensures { Rowed row (due_at ahead at leads.now) gaps.old gaps.new n }
{
    for k in 0..n {
        gaps[row + k] = higher(gaps[row + k], leads[ahead + k] + at);
    }
}

// Raises the row of an origin's step by the leads of its value.
fn raise_row(n: usize, origin: Origin, leads: &[u32; LEADS], gaps: &mut [u32])
    requires { Gaps gaps.old × (n ≤ step_limit) × OriginKnown n origin × LeadsKnown n leads.now }
    ensures { Reached n (Ahead origin leads.now) gaps.old gaps.new }
{
    let row = WIDTH * origin.step as usize;
    let ahead = WIDTH * origin.value as usize;
    let at = origin.at as u32;
    if MANY_STEPS < n {
        raise_part(WIDTH, row, ahead, at, leads, gaps);
    } else {
        raise_part(n, row, ahead, at, leads, gaps);
    }
}

// Each setter of a fact before the later ones of the other value: the latest setter first, by a row. As what stands behind it and has the
// other value is later, no tick is looked at.
pub fn row_setters(
    n: usize,
    starts: &[u32],
    points: &[u64],
    low: usize,
    high: usize,
    gaps: &mut [u32],
)
    requires { Gaps gaps.old × (n ≤ step_limit) × Group n starts.now points.now low high
        × ValuesApart points.now low high }
    ensures { Reached n (FromPoints (schedule_of starts.now) points.now low high Other)
        gaps.old gaps.new }
{
    let mut leads = [NO_LEAD; LEADS];
    for p in (low..high).rev() {
        let word = points[p];
        let origin = point_origin(starts, word, Turn::Other);
        raise_row(n, origin, &leads, gaps);
        note(starts, word, &mut leads);
    }
}

// Each point of the first places before the later ones of the second that have the other value or the same, by `turn`: the latest point
// first, by a row.
pub fn row_points(
    n: usize,
    starts: &[u32],
    points: &[u64],
    first: Span,
    second: Span,
    turn: Turn,
    gaps: &mut [u32],
)
    requires { Gaps gaps.old × (n ≤ step_limit) × Group n starts.now points.now first.low first.high
        × Group n starts.now points.now second.low second.high }
    ensures { Reached n (FromTo (schedule_of starts.now) points.now first second turn)
        gaps.old gaps.new }
{
    let mut leads = [NO_LEAD; LEADS];
    let mut noted = second.high;
    for p in (first.low..first.high).rev() {
        let origin = point_origin(starts, points[p], turn);
        noted = note_from(starts, points, second.low, noted, origin.tick, &mut leads);
        raise_row(n, origin, &leads, gaps);
    }
}

// Each condition before the later setters of the other value: the latest condition first, by a row.
pub fn row_conditions(job: JobReader, starts: &[u32], points: &[u64], fact: Fact, gaps: &mut [u32])
    requires { FactKnown (seen job) starts.now points.now fact × Gaps gaps.old }
    ensures { Reached job.entry.head.count.steps
        (FromConditions (seen job.entry) (schedule_of starts.now) points.now fact)
        gaps.old gaps.new }
{
    let mut leads = [NO_LEAD; LEADS];
    let mut noted = fact.high;
    for p in (fact.after..fact.until).rev() {
        let origin = last_origin(job, points[p]);
        noted = note_from(starts, points, fact.low, noted, origin.tick, &mut leads);
        raise_row(job.head.count.steps as usize, origin, &leads, gaps);
    }
}
