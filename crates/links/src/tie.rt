// Ties: the setters of a fact at the tick with which a run begins. A condition takes the first of its own step, or else the first of all.
ghost use Rattle.std.specs.Prelude.{◌≡◌, ◌≤◌, ◌<◌, length};
ghost use Rattle.timeline.specs.Words.{step_span};
ghost use Rattle.timeline.specs.Placed.{place_limit};
ghost use Rattle.links.specs.Tied.{Tied, Firsts, Noted, TieKnown, TieAt, OwnPlace};

use timeline::word::{STEP_SPAN, step_of, tick_of};

// An entry a step: where its first point stands in a tie of several. So no condition walks along the tie. The entry of a step that has none
// there is left from earlier ties, and is seen not to be of this one.
pub const FIRSTS: usize = STEP_SPAN as usize;

// The points from place `from` up to `end`.
#[derive(Clone, Copy)]
pub struct Tie {
    pub from: usize,
    pub end: usize,
}

// The first place behind `from` with another tick, or where the points of the fact end.
fn tie_end(points: &[u64], from: usize, high: usize) -> usize
    requires { (from < high) × (high ≤ length points.now) }
    ensures { Tied points.now from high result }
{
    let tick = tick_of(points[from]);
    for end in from + 1..high {
        if tick_of(points[end]) != tick {
            return end;
        }
    }
    high
}

// Notes the first place of each step: from the last point to the first, which stays.
fn note_firsts(points: &[u64], from: usize, end: usize, firsts: &mut [u16])
    requires { (from ≤ end) × (end ≤ length points.now) × (end < place_limit) × (length firsts.old ≡ step_span) }
    ensures { Firsts points.now from end firsts.new }
{
    for p in (from..end).rev() {
        firsts[step_of(points[p]) as usize] = p as u16;
    }
}

// The tie with which a run begins, found only where it is not the last one.
pub fn tie_at(points: &[u64], run: usize, high: usize, last: Tie, firsts: &mut [u16]) -> Tie
    requires { TieKnown points.now high last firsts.old × (run ≤ high) × (high ≤ length points.now) × (high < place_limit) }
    ensures { TieAt points.now high run result firsts.new }
{
    if (last.from == run) & (run < last.end) {
        return last;
    }
    if high <= run {
        return Tie {
            from: run,
            end: run,
        };
    }
    let end = tie_end(points, run, high);
    let second = run + 1;
    if second < end {
        note_firsts(points, run, end, firsts);
    }
    Tie { from: run, end }
}

// The place of a tie's point that a condition of a step takes.
pub fn own_place(points: &[u64], tie: Tie, firsts: &[u16], step: u16) -> usize
    requires { Noted points.now tie firsts.now × (step < step_span) }
    ensures { OwnPlace points.now tie.from tie.end step result }
{
    if tie.end <= tie.from + 1 {
        return tie.from;
    }
    let first = firsts[step as usize] as usize;
    if (first < tie.from) | (tie.end <= first) {
        return tie.from;
    }
    if step_of(points[first]) == step {
        first
    } else {
        tie.from
    }
}
