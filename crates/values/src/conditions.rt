// Refusal 11: conditions that fail, found along the setters of each fact, with those that their own step opposes (7).
ghost use Rattle.points.specs.Timelines.{model, schedule};
ghost use Rattle.job_reader.specs.Seen.{seen};
ghost use Rattle.std.specs.Prelude.{◌≡◌, cond, ◌-◌, ◌≤◌, ◌<◌, eqb, ltb, length};
ghost use Rattle.laws.specs.Search.{first_where};
ghost use Rattle.job.specs.Clocked.{clocked};
ghost use Rattle.timeline.specs.Words.{word_tick, word_number, value_at};
ghost use Rattle.validity.specs.Ticks.{schedule_of};
ghost use Rattle.points.specs.Points.{Wanting};
ghost use Rattle.values.specs.Contested.{Opposed, contested, ScannedBefore};
ghost use Rattle.laws.specs.Noted.{Noted};
ghost use Rattle.opposing.specs.Against.{Rising};
ghost use Rattle.values.specs.Conditions.{ConditionsKnown, ConditionAt, NotPast, Come};

use job_reader::reader::JobReader;
use opposing::scan::{is_past, opposed_from, opposing_from};
use points::timelines::Timeline;
use ticks::last_tick;
use timeline::walk::{Cursor, advance};
use timeline::word::{STEP_SPAN, begin_at, number_of, step_of, tick_of, value_of};

// The places of a fact's setters, and the fact's initial value.
#[derive(Clone, Copy)]
struct Setters {
    low: usize,
    high: usize,
    initial: u16,
}

// A place among a fact's setters and the run before it; the points from there up to `off` give 0, those up to `on` give 1.
#[derive(Clone, Copy)]
struct Walk {
    place: usize,
    run: usize,
    off: usize,
    on: usize,
}

// Where the first point can stand, from the walk's place on, that opposes a value.
fn opposing(walk: Walk, value: u16) -> usize
    ensures { result ≡ cond (eqb value 0) walk.off walk.on }
{
    if value == 0 { walk.off } else { walk.on }
}

// Goes on to the first tick of a condition, and to the first point from there on that opposes it.
fn walk_to(points: &[u64], setters: Setters, word: u64, walk: Walk) -> Walk
    requires { NotPast points.now setters (word_tick word) walk }
    ensures { Come points.now setters (word_tick word) result }
{
    let from = Cursor {
        place: walk.place,
        run: walk.run,
    };
    let cursor = advance(points, setters.low, setters.high, tick_of(word), from);
    let off = cursor.place.max(walk.off);
    let on = cursor.place.max(walk.on);
    if value_of(word) == 0 {
        Walk {
            place: cursor.place,
            run: cursor.run,
            off: opposing_from(points, off, setters.high, 0),
            on,
        }
    } else {
        Walk {
            place: cursor.place,
            run: cursor.run,
            off,
            on: opposing_from(points, on, setters.high, 1),
        }
    }
}

// The value seen at the walk's tick: that of the point before its place, or the initial one.
fn seen_at(points: &[u64], setters: Setters, place: usize) -> u16
    requires { place ≤ length points.now }
    ensures { result ≡ cond (ltb setters.low place) (value_at points.now (place - 1)) setters.initial }
{
    if setters.low < place {
        value_of(points[place - 1])
    } else {
        setters.initial
    }
}

// A step that no point is of, nor is it the clock.
const NO_STEP: u16 = STEP_SPAN as u16 - 1;

// Whether a point from a place on, before tick `last`, has another value, whatever its step.
fn opposed_before(points: &[u64], from: usize, high: usize, last: usize, value: u16) -> bool
    requires { (high ≤ length points.now) × Rising points.now from high }
    ensures { ScannedBefore points.now from high last value result }
{
    if last == 0 {
        return false;
    }
    opposed_from(points, from, high, last - 1, value, NO_STEP)
}

// Whether a point from a place on has another value: one of another step up to tick `last`, or one of any step before it. In a sound
// timing there is none, and the first point tells.
fn is_opposed(points: &[u64], from: usize, high: usize, last: usize, value: u16, step: u16) -> bool
    requires { (high ≤ length points.now) × Rising points.now from high }
    ensures { Opposed points.now from high last value step result }
{
    if is_past(points, from, high, last) {
        return false;
    }
    let broken = opposed_from(points, from, high, last, value, step);
    let early = opposed_before(points, from, high, last, value);
    broken | early
}

// Whether the condition in a word fails or is opposed before its last tick, by a walk that has come to its first tick.
fn is_contested(
    job: JobReader,
    starts: &[u32],
    points: &[u64],
    setters: Setters,
    walk: Walk,
    word: u64,
) -> bool
    requires { ConditionAt (clocked (seen job)) (schedule_of starts.now) points.now setters walk word }
    ensures { result ≡ contested (clocked (seen job.entry)) (schedule_of starts.now) (word_number word) }
{
    let value = value_of(word);
    let step = step_of(word);
    let last = last_tick(job, starts, number_of(word), step);
    let from = opposing(walk, value);
    let opposed = is_opposed(points, from, setters.high, last, value, step);
    (seen_at(points, setters, walk.place) != value) | opposed
}

// The lowest contested condition on a fact, or the count of conditions.
fn contested_of(timeline: Timeline, fact: u16) -> u16
    requires { ConditionsKnown (model timeline) (schedule timeline) timeline.points.now timeline.begins.now
        × (fact < timeline.job.head.count.facts) }
    ensures { Noted timeline.entry.job.head.count.conditions (contested (model timeline.entry) (schedule timeline.entry))
        (Wanting (model timeline.entry) fact) result }
{
    let Timeline {
        job,
        starts,
        points,
        begins,
    } = timeline;
    let setters = Setters {
        low: begin_at(begins, fact as usize),
        high: begin_at(begins, fact as usize + 1),
        initial: job.fact_initial(fact),
    };
    let group = job.head.count.facts as usize + fact as usize;
    let end = begin_at(begins, group + 1);
    let mut walk = Walk {
        place: setters.low,
        run: setters.low,
        off: setters.low,
        on: setters.low,
    };
    let mut best = job.head.count.conditions;
    for q in begin_at(begins, group)..end {
        let word = points[q];
        walk = walk_to(points, setters, word, walk);
        if is_contested(job, starts, points, setters, walk, word) {
            best = best.min(number_of(word));
        }
    }
    best
}

// The lowest contested condition, if one is.
pub fn first_contested(timeline: Timeline) -> Option<u16>
    requires { ConditionsKnown (model timeline) (schedule timeline) timeline.points.now timeline.begins.now }
    ensures { result ≡ first_where timeline.entry.job.head.count.conditions (contested (model timeline.entry) (schedule timeline.entry)) }
{
    let Timeline { job, .. } = timeline;
    let n = job.head.count.conditions;
    let mut best = n;
    for fact in 0..job.head.count.facts {
        best = best.min(contested_of(timeline, fact));
    }
    if best < n { Some(best) } else { None }
}
