// Loosening: an order file from a sound job.
#![tactic(auto)]

ghost use Rattle.points.specs.Timelines.{schedule};
ghost use Rattle.job_reader.specs.Seen.{seen, IsLaid};
ghost use Rattle.validity.specs.Ticks.{schedule_of};
ghost use Rattle.orders.specs.File.{file_of};
ghost use Rattle.schedule.specs.Opened.{Planned};
ghost use Rattle.order_file.specs.Contents.{no_latest};
ghost use Rattle.limits.specs.Timed.{TimedPoints, TimedLinks, AllAre};
ghost use Rattle.partialize.specs.Formed.{Formed};
ghost use Rattle.points.specs.Words.{Room};
ghost use Rattle.partialize.specs.Found.{ValidSchedule, Timed, Linked, LimitsFound, LatestFound};
ghost use Rattle.partialize.specs.Holds.{Fileable, Filing, FiledOf};
ghost use Rattle.partialize.specs.Demands.{Promise};

pub mod answer;

use answer::{Answer, Unfiled};
use gaps::fill;
use job::layout::Job;
use job_reader::reader::JobReader;
use limits::{earliest, latest};
use links::numbers::number_links;
use links::support;
use order_file::layout::{MOST_LINKS, NO_LATEST, link_at};
use order_file::table::{ENTRIES, NO_ORDER, WIDTH};
use order_file::write::{Header, count_orders, write_file};
use points::timelines::Timeline;
use points::words::{
    FEW_BEGINS, FEW_POINTS, MOST_BEGINS, MOST_POINTS, is_small, list_own_points, list_points,
};
use ticks::planned_starts;
use windows::{starts, window};

// Finds the limits of a valid schedule, in a list of zeros: those that timed facts leave, then written starts.
fn find_limits(timeline: Timeline, links: &[u16], limits: &mut [u32])
    requires { TimedPoints (seen timeline.job) timeline.starts.now timeline.points.now timeline.begins.now
        × TimedLinks (seen timeline.job) timeline.starts.now links.now
        × IsLaid timeline.job × AllAre 0 limits.old }
    ensures { LimitsFound (seen timeline.entry.job) (schedule timeline.entry) limits.new }
{
    let Timeline { job, .. } = timeline;
    earliest::clock_limits(timeline, links, limits);
    window::limits(job, limits);
}

// Finds its latest starts, in a list of none: those that timed facts leave, then written starts and deadlines.
fn find_latest(timeline: Timeline, links: &[u16], latest: &mut [u32])
    requires { TimedPoints (seen timeline.job) timeline.starts.now timeline.points.now timeline.begins.now
        × TimedLinks (seen timeline.job) timeline.starts.now links.now
        × IsLaid timeline.job × AllAre no_latest latest.old }
    ensures { LatestFound (seen timeline.entry.job) (schedule timeline.entry) latest.new }
{
    let Timeline { job, .. } = timeline;
    latest::clock_latest(timeline, latest);
    window::latest_starts(job, links, latest);
}

// Files what windows, links and gaps say, if the buffer is long enough for it.
fn file_found(
    job: Job,
    limits: &[u32; WIDTH],
    latest: &[u32; WIDTH],
    links: &[u16],
    gaps: &[u32],
    out: &mut [u8],
) -> Answer
    requires { Fileable job.count limits.now latest.now links.now gaps.now }
    ensures { FiledOf job limits.now latest.now links.now gaps.now out.old
        out.new result }
{
    let steps = job.count.steps as usize;
    let count = job.count.conditions as usize + job.count.goals as usize;
    let mut earliest = [0; WIDTH];
    let rounds = starts::earliest_starts(limits, steps, gaps, &mut earliest);
    let orders = count_orders(gaps, steps);
    let length = link_at(steps, orders, count);
    if out.len() < length {
        return Err(Unfiled::BufferTooShort);
    }
    let header = Header {
        steps,
        orders,
        links: count,
        rounds,
    };
    write_file(header, limits, latest, &earliest, gaps, links, out);
    Ok(length as u32)
}

// Finds the gaps and the windows of a valid schedule whose links are found and whose steps' points are in order, and files them.
fn file_points(timeline: Timeline, links: &mut [u16], out: &mut [u8]) -> Answer
    requires { Linked (seen timeline.job) timeline.starts.now timeline.points.now timeline.begins.now links.old × IsLaid timeline.job }
    ensures { Filing (file_of (seen timeline.entry.job) (schedule timeline.entry)) out.old out.new result }
{
    let Timeline { job, .. } = timeline;
    let mut gaps = [NO_ORDER; ENTRIES];
    fill::fill_gaps(timeline, links, &mut gaps);
    let mut limits = [0u32; WIDTH];
    find_limits(timeline, links, &mut limits);
    let mut latest = [NO_LATEST; WIDTH];
    find_latest(timeline, links, &mut latest);
    number_links(job.head, links);
    file_found(job.head, &limits, &latest, links, &gaps, out)
}

// The same where there are timed facts: the rules order the points of steps alone.
fn file_timed(job: JobReader, starts: &[u32], links: &mut [u16], out: &mut [u8]) -> Answer
    requires { Timed (seen job) starts.now links.old × IsLaid job }
    ensures { Filing (file_of (seen job.entry) (schedule_of starts.now)) out.old out.new result }
{
    let mut spare = [0u64; MOST_POINTS];
    let mut points = [0u64; MOST_POINTS];
    let mut begins = [0u16; MOST_BEGINS];
    list_own_points(job, starts, &mut spare, &mut points, &mut begins);
    let timeline = Timeline {
        job,
        starts,
        points: &points,
        begins: &begins,
    };
    file_points(timeline, links, out)
}

// Finds the links of a valid schedule whose points are in order, and files what it allows.
fn file_schedule(timeline: Timeline, out: &mut [u8]) -> Answer
    requires { ValidSchedule (seen timeline.job) timeline.starts.now timeline.points.now timeline.begins.now × IsLaid timeline.job }
    ensures { Filing (file_of (seen timeline.entry.job) (schedule timeline.entry)) out.old out.new result }
{
    let Timeline { job, starts, .. } = timeline;
    let mut links = [0u16; MOST_LINKS];
    support::find_links(timeline, &mut links);
    if job.head.count.timed == 0 {
        return file_points(timeline, &mut links, out);
    }
    file_timed(job, starts, &mut links, out)
}

// Checks a job whose points at its planned starts are in order, and files it.
fn loosen_ordered(timeline: Timeline, out: &mut [u8]) -> Answer
    requires { Planned timeline.job.bytes.now timeline.job.head timeline.starts.now timeline.points.now timeline.begins.now }
    ensures { Promise timeline.entry.job.bytes.now out.old out.new result }
{
    schedule::check_planned(timeline)?;
    file_schedule(timeline, out)
}

// Puts the points of a job in order where there is room for them, once for the check and the file.
fn loosen_within<const POINTS: usize, const BEGINS: usize>(
    job: JobReader,
    starts: &[u32],
    out: &mut [u8],
) -> Answer
    requires { Formed job.bytes.now job.head starts.now × Room job.head.count POINTS BEGINS }
    ensures { Promise job.entry.bytes.now out.old out.new result }
{
    let mut spare = [0u64; POINTS];
    let mut points = [0u64; POINTS];
    let mut begins = [0u16; BEGINS];
    list_points(job, starts, &mut spare, &mut points, &mut begins);
    let timeline = Timeline {
        job,
        starts,
        points: &points,
        begins: &begins,
    };
    loosen_ordered(timeline, out)
}

// With little room for a small job.
fn loosen(job: JobReader, starts: &[u32], out: &mut [u8]) -> Answer
    requires { Formed job.bytes.now job.head starts.now }
    ensures { Promise job.entry.bytes.now out.old out.new result }
{
    if is_small(job.head) {
        loosen_within::<FEW_POINTS, FEW_BEGINS>(job, starts, out)
    } else {
        loosen_within::<MOST_POINTS, MOST_BEGINS>(job, starts, out)
    }
}

// Loosens a job into an order file: the file's length, with the file at the front of the buffer and every byte past it as it was; or
// the first refusal of the job check, or that the buffer is too short, with no byte changed. Whatever starts satisfy the file are a
// sound timing of the job with the planned end.
pub fn partialize(s: &[u8], out: &mut [u8]) -> Answer
    ensures { Promise s.now out.old out.new result }
{
    let head = schedule::open_job(s)?;
    let job = JobReader { bytes: s, head };
    let n = head.count.steps as usize;
    let starts = planned_starts(job, n);
    loosen(job, &starts[..n], out)
}
