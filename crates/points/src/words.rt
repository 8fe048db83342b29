// The points of a job as words: those of its conditions, effects, timed facts, uses and needs, listed and then sorted by group, tick and number.
ghost use Rattle.job_reader.specs.Seen.{seen, IsLaid};
ghost use Rattle.std.specs.Prelude.{◌≡◌, ℕ, true, ◌+◌, ◌≤◌, ◌<◌, length};
ghost use Rattle.job.specs.Clocked.{clocked};
ghost use Rattle.job.specs.WellFormed.{Ranged};
ghost use Rattle.points.specs.Points.{PointsKnown};
ghost use Rattle.points.specs.Words.{point_count};
ghost use Rattle.points.specs.Words.{PutBy, WordsListed, PointRoom, Small};
ghost use Rattle.validity.specs.Ticks.{schedule_of};

use job::layout::{Counts, Job};
use job_reader::reader::JobReader;
use point_words::own::untimed;
use point_words::{condition_word, effect_word, need_word, timed_word, use_word};
use sort::sort_points;

// How many points and groups a job has at most.
pub const MOST_POINTS: usize = Job::CONDITIONS as usize
    + Job::EFFECTS as usize
    + Job::TIMED as usize
    + Job::USES as usize
    + Job::NEEDS as usize;

pub const MOST_GROUPS: usize = 2 * Job::FACTS as usize + 2 * Job::LEVELS as usize;

// How many a small job has at most: its lists are shorter, since it would hardly use the long ones that it clears.
pub const FEW_POINTS: usize = 192;

pub const FEW_GROUPS: usize = 96;

// Room for where the groups begin, and where the last of them ends and one more.
pub const FEW_BEGINS: usize = FEW_GROUPS + 2;

pub const MOST_BEGINS: usize = MOST_GROUPS + 2;

// How many points a job has, and in how many groups.
fn points_counted(count: Counts) -> usize
    ensures { result ≡ count.conditions + (count.effects + count.timed) + count.uses + count.needs }
{
    let setters = count.effects as usize + count.timed as usize;
    count.conditions as usize + setters + count.uses as usize + count.needs as usize
}

fn groups_counted(count: Counts) -> usize
    ensures { result ≡ count.facts + count.facts + count.levels + count.levels }
{
    let facts = count.facts as usize;
    let levels = count.levels as usize;
    facts + facts + levels + levels
}

// Whether a job is small.
pub fn is_small(job: Job) -> bool
    ensures { result ≡ true → Small job.count }
{
    (points_counted(job.count) <= FEW_POINTS) & (groups_counted(job.count) <= FEW_GROUPS)
}

// Puts the words of n records into a list from a place on; a closure makes the word of each.
fn put_words_of<F: Fn(u16) -> u64>(n: u16, from: usize, word: F, points: &mut [u64])
    requires room { from + n ≤ length points.old }
    requires callable { (k : ℕ) → k < n → F.pre word k }
    ensures { PutBy (F.post word) from n points.old points.new }
{
    for k in 0..n {
        points[from + k as usize] = word(k);
    }
}

// Lists the words of all points of a job: those of each table behind those of the last.
fn put_words(job: JobReader, starts: &[u32], points: &mut [u64])
    requires { Ranged (seen job) × (point_count (clocked (seen job)) ≤ length points.old) × IsLaid job }
    ensures { WordsListed (clocked (seen job.entry)) (schedule_of starts.now) points.new
        × (length points.new ≡ length points.old) }
{
    let count = job.head.count;
    let effects = count.conditions as usize;
    let timed = effects + count.effects as usize;
    let uses = timed + count.timed as usize;
    let needs = uses + count.uses as usize;
    put_words_of(
        count.conditions,
        0,
        |c| condition_word(job, starts, c),
        points,
    );
    put_words_of(
        count.effects,
        effects,
        |e| effect_word(job, starts, e),
        points,
    );
    put_words_of(count.timed, timed, |j| timed_word(job, starts, j), points);
    put_words_of(count.uses, uses, |u| use_word(job, starts, u), points);
    put_words_of(count.needs, needs, |n| need_word(job, starts, n), points);
}

// Lists the points of a job at the given starts, its timed facts among its effects, group by group in the order of their ticks.
pub fn list_points(
    job: JobReader,
    starts: &[u32],
    spare: &mut [u64],
    points: &mut [u64],
    begins: &mut [u16],
)
    requires { Ranged (seen job) × PointRoom (clocked (seen job)) spare.old points.old begins.old × IsLaid job }
    ensures { PointsKnown (clocked (seen job.entry)) (schedule_of starts.now) points.new begins.new }
{
    put_words(job, starts, spare);
    sort_points(
        points_counted(job.head.count),
        groups_counted(job.head.count),
        spare,
        points,
        begins,
    );
}

// The same without timed facts.
pub fn list_own_points(
    job: JobReader,
    starts: &[u32],
    spare: &mut [u64],
    points: &mut [u64],
    begins: &mut [u16],
)
    requires { Ranged (seen job) × PointRoom (seen job) spare.old points.old begins.old × IsLaid job }
    ensures { PointsKnown (seen job.entry) (schedule_of starts.now) points.new begins.new }
{
    let own = JobReader {
        bytes: job.bytes,
        head: untimed(job.head),
    };
    list_points(own, starts, spare, points, begins);
}
