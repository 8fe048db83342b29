// Earliest limits: a point strictly after the tick T of a timed fact gives start ≥ T + 1 − point.
ghost use Rattle.points.specs.Timelines.{schedule};
ghost use Rattle.job_reader.specs.Seen.{seen, IsLaid};
ghost use Rattle.std.specs.Prelude.{◌≡◌, ◌-◌, ◌<◌, length};
ghost use Rattle.job.specs.WellFormed.{WellFormed};
ghost use Rattle.validity.specs.Ticks.{schedule_of};
ghost use Rattle.order_file.specs.Table.{row_width};
ghost use Rattle.limits.specs.Timed.{TimedPoints, TimedLinks, AllAre, ClockLimits};
ghost use Rattle.moves.specs.Moved.{Up, Moved, Among};
ghost use Rattle.limits.specs.Beside.{LaterThan, OfWords, OfTimed, LimitBy, LimitByLink, Begun, LinksNamed};
ghost use Rattle.moves.specs.Others.{Row};

use crate::timed::{MARKS, MOST_TIMED, Span, list_timed, span_of};
use job_reader::reader::JobReader;
use moves::others::last_other;
use moves::{raise_limit, raise_point};
use order_file::layout::INITIAL_STATE;
use points::timelines::Timeline;
use timeline::walk::{Cursor, advance};
use timeline::word::{tick_of, value_of};

// Rules 2 and 3 for the points of a span: along them and, beside them, its timed facts.
fn raise_points(starts: &[u32], points: &[u64], order: &[u64], span: Span, limits: &mut [u32])
    requires { Begun (length limits.old) (schedule_of starts.now) points.now span.low span.high
        × Row order.now span.from span.until }
    ensures { Moved Up
        (OfWords points.now span.low span.high
        (OfTimed order.now span.from span.until (LaterThan (schedule_of starts.now))))
        limits.old limits.new }
{
    if span.until <= span.from {
        return;
    }
    let mut cursor = Cursor {
        place: span.from,
        run: span.from,
    };
    for p in span.low..span.high {
        let word = points[p];
        cursor = advance(order, span.from, span.until, tick_of(word), cursor);
        let last = last_other(order, span.from, cursor, value_of(word));
        raise_point(starts, word, last, limits);
    }
}

// For all points of each fact.
fn raise_timed(timeline: Timeline, limits: &mut [u32])
    requires { TimedPoints (seen timeline.job) timeline.starts.now timeline.points.now timeline.begins.now × IsLaid timeline.job
        × (length limits.old ≡ row_width) }
    ensures { Moved Up
        (Among 0 timeline.entry.job.head.count.timed
        (LimitBy (seen timeline.entry.job) (schedule timeline.entry) timeline.entry.points.now timeline.entry.begins.now))
        limits.old limits.new }
{
    let Timeline {
        job,
        starts,
        points,
        begins,
    } = timeline;
    if job.head.count.timed == 0 {
        return;
    }
    let mut order = [0u64; MOST_TIMED];
    let mut marks = [0u16; MARKS];
    list_timed(job, starts, &mut order, &mut marks);
    let facts = job.head.count.facts as usize;
    for f in 0..facts {
        let setters = span_of(begins, f, &marks, f);
        raise_points(starts, points, &order, setters, limits);
        let wanted = span_of(begins, facts + f, &marks, f);
        raise_points(starts, points, &order, wanted, limits);
    }
}

// Rule 1: condition c begins after the timed fact that it is linked to.
fn raise_linked(job: JobReader, links: &[u16], c: u16, limits: &mut [u32])
    requires { WellFormed (seen job) × LinksNamed (seen job) links.now × (c < job.head.count.conditions) × IsLaid job
        × (length limits.old ≡ row_width) }
    ensures { Moved Up (LimitByLink (seen job.entry) links.now c) limits.old limits.new }
{
    let link = links[c as usize];
    if (link < job.head.count.effects) | (link == INITIAL_STATE) {
        return;
    }
    let condition = job.condition(c);
    let timed = job.timed(link - job.head.count.effects);
    raise_limit(condition.step, condition.from, timed.tick + 1, limits);
}

// For all conditions.
fn raise_supported(job: JobReader, links: &[u16], limits: &mut [u32])
    requires { WellFormed (seen job) × LinksNamed (seen job) links.now × IsLaid job × (length limits.old ≡ row_width) }
    ensures { Moved Up (Among 0 job.entry.head.count.conditions (LimitByLink (seen job.entry) links.now))
        limits.old limits.new }
{
    if job.head.count.timed == 0 {
        return;
    }
    for c in 0..job.head.count.conditions {
        raise_linked(job, links, c, limits);
    }
}

// Raises the limits of the steps, all of them 0, to what timed facts leave.
pub fn clock_limits(timeline: Timeline, links: &[u16], limits: &mut [u32])
    requires { TimedPoints (seen timeline.job) timeline.starts.now timeline.points.now timeline.begins.now
        × TimedLinks (seen timeline.job) timeline.starts.now links.now
        × IsLaid timeline.job × AllAre 0 limits.old }
    ensures { ClockLimits (seen timeline.entry.job) (schedule timeline.entry) limits.new }
{
    let Timeline { job, .. } = timeline;
    raise_timed(timeline, limits);
    raise_supported(job, links, limits);
}
