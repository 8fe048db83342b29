// Refusal 21: the needs of each level, in the order of their ticks, beside its uses.
#![tactic(auto)]

ghost use Rattle.points.specs.Timelines.{model};
ghost use Rattle.job_reader.specs.Seen.{seen, IsLaid};
ghost use Rattle.std.specs.Prelude.{◌≡◌, cond, ℕ, ◌+◌, ◌≤◌, ◌<◌};
ghost use Rattle.laws.specs.Search.{first_where};
ghost use Rattle.little_endian.specs.Bytes.{sign_bias};
ghost use Rattle.job.specs.Clocked.{clocked};
ghost use Rattle.job.specs.WellFormed.{Ranged};
ghost use Rattle.timeline.specs.Placed.{Parted, place_limit};
ghost use Rattle.timeline.specs.Words.{word_tick, word_number};
ghost use Rattle.validity.specs.Levels.{fall, falls_against, unmet};
ghost use Rattle.points.specs.Points.{PointsKnown};
ghost use Rattle.levels.specs.LevelSums.{sum_limit, Summed};
ghost use Rattle.needs.specs.LevelNeeds.{Behind, NeedAt, NeedsOfLevels};

use job_reader::reader::JobReader;
use levels::bounds::{Sums, with_use};
use little_endian::SIGN_BIAS;
use points::timelines::Timeline;
use timeline::word::{begin_at, number_of, step_of, tick_of};

// The sums with all uses before the tick of a need's word.
fn sums_before(job: JobReader, points: &[u64], high: usize, from: Sums, word: u64) -> Sums
    requires { (low : ℕ) × Behind (clocked (seen job)) points.now low high (word_tick word) from }
    ensures { (low : ℕ) → Behind (clocked (seen job.entry)) points.now low high (word_tick word) from
        → Summed (clocked (seen job.entry)) points.now low high result
        × Parted points.now low high (word_tick word) result.place }
{
    let tick = tick_of(word);
    let mut sums = from;
    // The sums hold the place: a range would count it a second time.
    while sums.place < high {
        let place = sums.place;
        let used = points[place];
        if tick <= tick_of(used) {
            return sums;
        }
        sums = with_use(job, sums, number_of(used));
    }
    sums
}

// What use u takes from its level, if it counts.
fn fall_of(job: JobReader, u: u16, counts: bool) -> usize
    ensures { (result ≡ cond counts (fall (clocked (seen job.entry)) u) 0) × (result ≤ sign_bias) }
{
    if !counts {
        return 0;
    }
    let amount = job.use_amount(u);
    if amount < SIGN_BIAS {
        SIGN_BIAS - amount
    } else {
        0
    }
}

// The falls that count against the need in a word: all before its tick, which the sums hold, and those of other steps at it.
fn falls_against(job: JobReader, points: &[u64], high: usize, before: Sums, word: u64) -> usize
    requires { (high < place_limit) × ((x : ℕ → ℕ) × NeedAt (clocked (seen job)) x points.now high before word) }
    ensures { (result ≤ sum_limit) × ((x : ℕ → ℕ) → NeedAt (clocked (seen job.entry)) x points.now high before word
        → result ≡ falls_against (clocked (seen job.entry)) x (word_number word)) }
{
    let tick = tick_of(word);
    let step = step_of(word);
    let mut falls = before.falls;
    for q in before.place..high {
        let used = points[q];
        let at = tick_of(used);
        if tick < at {
            return falls;
        }
        let others = step_of(used) != step;
        falls += fall_of(job, number_of(used), others);
    }
    falls
}

// Whether the need in a word is unmet, by the sums of its level's uses before its tick.
fn is_unmet(job: JobReader, points: &[u64], high: usize, before: Sums, word: u64) -> bool
    requires { IsLaid job × (high < place_limit) × ((x : ℕ → ℕ) × NeedAt (clocked (seen job)) x points.now high before word) }
    ensures { (x : ℕ → ℕ) → NeedAt (clocked (seen job.entry)) x points.now high before word
        → result ≡ unmet (clocked (seen job.entry)) x (word_number word) }
{
    let need = job.need(number_of(word));
    let initial = job.level_initial(need.level);
    let falls = falls_against(job, points, high, before, word);
    initial + before.rises < need.least + falls
}

// The lowest unmet need of level l and of those below it, whose own is given; the count of needs stands for none.
fn with_level(timeline: Timeline, l: u16, below: u16) -> u16
    requires { IsLaid timeline.job × (l < timeline.job.head.count.levels)
        × ((x : ℕ → ℕ) × PointsKnown (model timeline) x timeline.points.now timeline.begins.now) }
    ensures { (x : ℕ → ℕ) → PointsKnown (model timeline.entry) x timeline.entry.points.now timeline.entry.begins.now
        → NeedsOfLevels (model timeline.entry) x l below
        → NeedsOfLevels (model timeline.entry) x (l + 1) result }
{
    let Timeline {
        job,
        points,
        begins,
        ..
    } = timeline;
    let first = job.head.count.facts as usize + job.head.count.facts as usize;
    let used = first + l as usize;
    let needed = first + job.head.count.levels as usize + l as usize;
    let high = begin_at(begins, used + 1);
    let end = begin_at(begins, needed + 1);
    let mut sums = Sums {
        place: begin_at(begins, used),
        rises: 0,
        falls: 0,
    };
    let mut best = below;
    for q in begin_at(begins, needed)..end {
        let word = points[q];
        sums = sums_before(job, points, high, sums, word);
        if is_unmet(job, points, high, sums, word) {
            best = best.min(number_of(word));
        }
    }
    best
}

// The lowest need that is not met, if one is not.
pub fn first_unmet(timeline: Timeline) -> Option<u16>
    requires { Ranged (seen timeline.job) × IsLaid timeline.job
        × ((x : ℕ → ℕ) × PointsKnown (model timeline) x timeline.points.now timeline.begins.now) }
    ensures { (x : ℕ → ℕ) → PointsKnown (model timeline.entry) x timeline.entry.points.now timeline.entry.begins.now
        → result ≡ first_where timeline.entry.job.head.count.needs (unmet (model timeline.entry) x) }
{
    let Timeline { job, .. } = timeline;
    let n = job.head.count.needs;
    if n == 0 {
        return None;
    }
    let mut best = n;
    for l in 0..job.head.count.levels {
        best = with_level(timeline, l, best);
    }
    if best < n { Some(best) } else { None }
}
