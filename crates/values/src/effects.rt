// Refusal 10: opposing effects of two steps, or of a step and the clock, at one tick.
ghost use Rattle.points.specs.Timelines.{model, schedule};
ghost use Rattle.job_reader.specs.Seen.{seen};
ghost use Rattle.std.specs.Prelude.{◌≡◌, ◌+◌, ◌<◌};
ghost use Rattle.laws.specs.Search.{first_where};
ghost use Rattle.job.specs.Clocked.{clocked};
ghost use Rattle.job.specs.WellFormed.{WellFormed};
ghost use Rattle.validity.specs.Ticks.{schedule_of};
ghost use Rattle.validity.specs.Checks as spec;
ghost use Rattle.points.specs.Points.{PointsKnown};

use job_reader::reader::JobReader;
use opposing::neighbours::any_mixed;
use opposing::scan::opposed_from;
use points::timelines::Timeline;
use ticks::effect_tick;
use timeline::walk::{Cursor, advance};
use timeline::word::begin_at;

// Whether effect e conflicts with one of its fact's setters at its tick.
fn conflicts(timeline: Timeline, e: u16) -> bool
    requires { WellFormed (seen timeline.job) × PointsKnown (model timeline) (schedule timeline) timeline.points.now timeline.begins.now
        × (e < timeline.job.head.count.effects) }
    ensures { result ≡ spec.conflicts (model timeline.entry) (schedule timeline.entry) e }
{
    let Timeline {
        job,
        starts,
        points,
        begins,
    } = timeline;
    let fact = job.effect_fact(e) as usize;
    let low = begin_at(begins, fact);
    let high = begin_at(begins, fact + 1);
    let tick = effect_tick(job, starts, e);
    let first = advance(
        points,
        low,
        high,
        tick,
        Cursor {
            place: low,
            run: low,
        },
    );
    let value = job.effect_value(e);
    opposed_from(points, first.place, high, tick, value, job.effect_step(e))
}

// The lowest effect that conflicts, found one by one: only jobs that are refused come here. A timed fact conflicts with effects of steps
// alone, so it is never the lowest.
fn lowest_conflict(timeline: Timeline) -> Option<u16>
    requires { WellFormed (seen timeline.job) × PointsKnown (model timeline) (schedule timeline) timeline.points.now timeline.begins.now }
    ensures { result ≡ first_where (timeline.entry.job.head.count.effects + timeline.entry.job.head.count.timed)
        (spec.conflicts (model timeline.entry) (schedule timeline.entry)) }
{
    let Timeline { job, .. } = timeline;
    for e in 0..job.head.count.effects {
        if conflicts(timeline, e) {
            return Some(e);
        }
    }
    None
}

// The lowest effect that an opposing effect of another step shares a tick with, if one does.
pub fn first_conflict(timeline: Timeline) -> Option<u16>
    requires { WellFormed (seen timeline.job) × PointsKnown (model timeline) (schedule timeline) timeline.points.now timeline.begins.now }
    ensures { result ≡ first_where (timeline.entry.job.head.count.effects + timeline.entry.job.head.count.timed)
        (spec.conflicts (model timeline.entry) (schedule timeline.entry)) }
{
    let Timeline {
        job,
        points,
        begins,
        ..
    } = timeline;
    if any_mixed(job.head.count.facts, points, begins) {
        lowest_conflict(timeline)
    } else {
        None
    }
}
