// Along the points of a group, in the order of their ticks.
ghost use Rattle.std.specs.Prelude.{◌+◌, ◌≤◌, ◌<◌, length};
ghost use Rattle.timeline.specs.Placed.{Parted, Run};
ghost use Rattle.timeline.specs.Walking.{Walking};

use crate::word::{tick_of, value_of};

// A place, and where the run of points of one value that ends before it begins.
#[derive(Clone, Copy)]
pub struct Cursor {
    pub place: usize,
    pub run: usize,
}

// Where the run begins that the point at a place ends, by the run that ends before it.
fn run_with(points: &[u64], low: usize, place: usize, run: usize) -> usize
    requires { (low ≤ place) × (place < length points.now) }
    ensures { Run points.now low place run → Run points.now low (place + 1) result }
{
    if place <= low {
        return place;
    }
    if value_of(points[place - 1]) == value_of(points[place]) {
        run
    } else {
        place
    }
}

// Goes on to the first place whose tick is t or later, or to the end.
pub fn advance(points: &[u64], low: usize, high: usize, t: usize, from: Cursor) -> Cursor
    requires { Walking points.now low high t from }
    ensures { Parted points.now low high t result.place × Run points.now low result.place result.run }
{
    let mut run = from.run;
    for place in from.place..high {
        if t <= tick_of(points[place]) {
            return Cursor { place, run };
        }
        run = run_with(points, low, place, run);
    }
    Cursor { place: high, run }
}

// Where the run of one value that ends a group begins.
pub fn last_run(points: &[u64], low: usize, high: usize) -> usize
    requires { (low ≤ high) × (high ≤ length points.now) }
    ensures { Run points.now low high result }
{
    if high <= low {
        return high;
    }
    let value = value_of(points[high - 1]);
    for place in (low..high - 1).rev() {
        if value_of(points[place]) != value {
            return place + 1;
        }
    }
    low
}
