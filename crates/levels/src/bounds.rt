// Refusal 12: a sweep along the uses of each level, tick by tick.
ghost use Rattle.points.specs.Timelines.{model};
ghost use Rattle.job_reader.specs.Seen.{seen};
ghost use Rattle.std.specs.Prelude.{◌≡◌, ℕ, ◌≤◌, ◌<◌};
ghost use Rattle.laws.specs.Search.{first_where};
ghost use Rattle.job.specs.Clocked.{clocked};
ghost use Rattle.validity.specs.Checks.{level_fails};
ghost use Rattle.points.specs.Points.{PointsKnown};
ghost use Rattle.timeline.specs.Placed.{place_limit};
ghost use Rattle.levels.specs.LevelSums.{sum_limit, in_bounds, UsesPlaced, Stretch, Summed, Added, SummedTick};

use job_reader::reader::JobReader;
use little_endian::SIGN_BIAS;
use points::timelines::Timeline;
use timeline::word::{begin_at, number_of, tick_of};

// What a level's uses before a place add to it and take from it.
#[derive(Clone, Copy)]
pub struct Sums {
    pub place: usize,
    pub rises: usize,
    pub falls: usize,
}

// The sums with use u at the place.
pub fn with_use(job: JobReader, sums: Sums, u: u16) -> Sums
    requires { (sums.place < place_limit) × (sums.rises ≤ sum_limit) × (sums.falls ≤ sum_limit) }
    ensures { Added (clocked (seen job.entry)) u sums result }
{
    let amount = job.use_amount(u);
    let place = sums.place + 1;
    if SIGN_BIAS < amount {
        let rises = sums.rises + (amount - SIGN_BIAS);
        Sums {
            place,
            rises,
            falls: sums.falls,
        }
    } else {
        let falls = sums.falls + (SIGN_BIAS - amount);
        Sums {
            place,
            rises: sums.rises,
            falls,
        }
    }
}

// The sums with all uses at the tick of the first use that they leave out.
fn sums_at(job: JobReader, points: &[u64], high: usize, before: Sums) -> Sums
    requires { (before.place < high)
        × ((low : ℕ) × Stretch points.now low high × Summed (clocked (seen job)) points.now low high before) }
    ensures { SummedTick (clocked (seen job.entry)) points.now high before result }
{
    let first = before.place;
    let tick = tick_of(points[first]);
    let mut sums = before;
    // The sums hold the place: a range would count it a second time.
    while sums.place < high {
        let place = sums.place;
        let word = points[place];
        if tick < tick_of(word) {
            return sums;
        }
        sums = with_use(job, sums, number_of(word));
    }
    sums
}

// At a tick the level from earlier ticks bears all of that tick's falls, and all of its rises: those before it, and those with it.
fn in_bounds(job: JobReader, l: u16, before: Sums, after: Sums) -> bool
    requires { (before.rises ≤ sum_limit) × (before.falls ≤ sum_limit) × (after.rises ≤ sum_limit) × (after.falls ≤ sum_limit) }
    ensures { result ≡ in_bounds (clocked (seen job.entry)) l before after }
{
    let level = job.level(l);
    let initial = level.initial;
    let least = level.least;
    let most = level.most;
    let above = least + after.falls <= initial + before.rises;
    let below = initial + after.rises <= most + before.falls;
    above & below
}

// Whether level l, whose uses stand from place low to high, passes a bound.
fn level_fails(job: JobReader, points: &[u64], low: usize, high: usize, l: u16) -> bool
    requires { Stretch points.now low high }
    ensures { (x : ℕ → ℕ) → UsesPlaced (clocked (seen job.entry)) x l points.now low high
        → result ≡ level_fails (clocked (seen job.entry)) x l }
{
    let mut sums = Sums {
        place: low,
        rises: 0,
        falls: 0,
    };
    // A turn goes on by a whole tick, so no range counts the turns.
    while sums.place < high {
        let next = sums_at(job, points, high, sums);
        if !in_bounds(job, l, sums, next) {
            return true;
        }
        sums = next;
    }
    false
}

// The lowest level that passes a bound, if one does.
pub fn first_out_of_bounds(timeline: Timeline) -> Option<u16>
    requires { (x : ℕ → ℕ) × PointsKnown (model timeline) x timeline.points.now timeline.begins.now }
    ensures { (x : ℕ → ℕ) → PointsKnown (model timeline.entry) x timeline.entry.points.now timeline.entry.begins.now
        → result ≡ first_where timeline.entry.job.head.count.levels (level_fails (model timeline.entry) x) }
{
    let Timeline {
        job,
        points,
        begins,
        ..
    } = timeline;
    for l in 0..job.head.count.levels {
        let group = job.head.count.facts as usize + job.head.count.facts as usize + l as usize;
        let low = begin_at(begins, group);
        let high = begin_at(begins, group + 1);
        if level_fails(job, points, low, high, l) {
            return Some(l);
        }
    }
    None
}
