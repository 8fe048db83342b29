// Latest starts: a point strictly before the tick T of a timed fact gives start ≤ T − point − 1.
ghost use Rattle.points.specs.Timelines.{schedule};
ghost use Rattle.job_reader.specs.Seen.{seen, IsLaid};
ghost use Rattle.std.specs.Prelude.{◌≡◌, ℕ, ◌+◌, ◌<◌, length};
ghost use Rattle.job.specs.WellFormed.{WellFormed};
ghost use Rattle.validity.specs.Ticks.{schedule_of};
ghost use Rattle.order_file.specs.Contents.{no_latest};
ghost use Rattle.order_file.specs.Table.{row_width};
ghost use Rattle.limits.specs.Timed.{TimedPoints, AllAre, ClockLatest};
ghost use Rattle.moves.specs.Moved.{Down, Moved, Among};
ghost use Rattle.limits.specs.Beside.{SoonerAt, SoonerThan, EndedBy, OfWords, OfTimed, LatestBy, Spanned, Asked, Answered, Begun, Wanted};
ghost use Rattle.moves.specs.Others.{Row};

use crate::timed::{MARKS, MOST_TIMED, Span, list_timed, span_of};
use job_reader::reader::JobReader;
use moves::others::{next_other, next_tick};
use moves::{end_in, lower_start, offset_in};
use points::timelines::Timeline;
use timeline::word::{step_of, tick_of, value_of};

// For points of a span, each as far into its step as `at` says: along them and, beside them, the timed facts that come next.
fn lower_points<F: Fn(u64) -> usize>(
    points: &[u64],
    order: &[u64],
    span: Span,
    at: F,
    latest: &mut [u32],
)
    requires { Spanned (length latest.old) points.now span.low span.high × Row order.now span.from span.until
        × Asked (F.pre at) points.now span.low span.high }
    ensures { (offset : ℕ → ℕ) → Answered (F.post at) points.now span.low span.high offset → Moved Down
        (OfWords points.now span.low span.high
        (OfTimed order.now span.from span.until (SoonerAt offset)))
        latest.old latest.new }
{
    if span.until <= span.from {
        return;
    }
    let mut off = span.from;
    let mut on = span.from;
    for p in span.low..span.high {
        let word = points[p];
        let tick = tick_of(word);
        off = next_other(order, off, span.until, 0, tick);
        on = next_other(order, on, span.until, 1, tick);
        let place = if value_of(word) == 0 { off } else { on };
        let next = next_tick(order, place, span.until);
        lower_start(step_of(word), at(word), next, latest);
    }
}

// Rule 2 for the setters of a span: an effect of another value comes before the first timed fact that it lies before.
fn lower_setters(starts: &[u32], points: &[u64], order: &[u64], span: Span, latest: &mut [u32])
    requires { Begun (length latest.old) (schedule_of starts.now) points.now span.low span.high
        × Row order.now span.from span.until }
    ensures { Moved Down
        (OfWords points.now span.low span.high
        (OfTimed order.now span.from span.until (SoonerThan (schedule_of starts.now))))
        latest.old latest.new }
{
    lower_points(points, order, span, |word| offset_in(starts, word), latest);
}

// Rule 3 for the conditions of a span: one that wants another value ends before the timed fact that it begins before, as the schedule is
// valid.
fn lower_conditions(job: JobReader, points: &[u64], order: &[u64], span: Span, latest: &mut [u32])
    requires { Wanted (seen job) (length latest.old) points.now span.low span.high × Row order.now span.from span.until
        × IsLaid job }
    ensures { Moved Down
        (OfWords points.now span.low span.high
        (OfTimed order.now span.from span.until (EndedBy (seen job.entry))))
        latest.old latest.new }
{
    lower_points(points, order, span, |word| end_in(job, word), latest);
}

// For all setters and conditions of each fact. Apart from `raise_timed`, though the walk is the same: there one rule raises both kinds of
// points, and here each has its own.
fn lower_timed(timeline: Timeline, latest: &mut [u32])
    requires { TimedPoints (seen timeline.job) timeline.starts.now timeline.points.now timeline.begins.now × IsLaid timeline.job
        × (length latest.old ≡ row_width) }
    ensures { Moved Down
        (Among 0 timeline.entry.job.head.count.timed
        (LatestBy (seen timeline.entry.job) (schedule timeline.entry) timeline.entry.points.now timeline.entry.begins.now))
        latest.old latest.new }
{
    let Timeline {
        job,
        starts,
        points,
        begins,
    } = timeline;
    if job.head.count.timed == 0 {
        return;
    }
    let mut order = [0u64; MOST_TIMED];
    let mut marks = [0u16; MARKS];
    list_timed(job, starts, &mut order, &mut marks);
    let facts = job.head.count.facts as usize;
    for f in 0..facts {
        let setters = span_of(begins, f, &marks, f);
        lower_setters(starts, points, &order, setters, latest);
        let wanted = span_of(begins, facts + f, &marks, f);
        lower_conditions(job, points, &order, wanted, latest);
    }
}

// Lowers the latest starts of the steps, none of which has one, to what timed facts leave.
pub fn clock_latest(timeline: Timeline, latest: &mut [u32])
    requires { TimedPoints (seen timeline.job) timeline.starts.now timeline.points.now timeline.begins.now × IsLaid timeline.job
        × AllAre no_latest latest.old }
    ensures { ClockLatest (seen timeline.entry.job) (schedule timeline.entry) latest.new }
{
    lower_timed(timeline, latest);
}
