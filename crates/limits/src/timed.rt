// The timed facts of a job, fact by fact in the order of their ticks.
ghost use Rattle.job_reader.specs.Seen.{seen, IsLaid};
ghost use Rattle.std.specs.Prelude.{◌≡◌, ◌+◌, ◌<◌, length, get_or};
ghost use Rattle.job.specs.Layout.{most_timed};
ghost use Rattle.job.specs.WellFormed.{WellFormed};
ghost use Rattle.validity.specs.Ticks.{schedule_of};
ghost use Rattle.limits.specs.Known.{only_timed, TimedKnown, mark_count};

use job::layout::{Counts, Job};
use job_reader::reader::JobReader;
use points::words::list_points;
use timeline::word::begin_at;

// Points of a fact from place `low` up to `high`, and its timed facts from place `from` up to `until`.
#[derive(Clone, Copy)]
pub struct Span {
    pub low: usize,
    pub high: usize,
    pub from: usize,
    pub until: usize,
}

pub const MOST_TIMED: usize = Job::TIMED as usize;

pub const MARKS: usize = 2 * Job::FACTS as usize + 2;

// A job of which only the timed facts are left.
fn only_timed(job: Job) -> Job
    ensures { result ≡ only_timed job }
{
    let count = Counts {
        levels: 0,
        conditions: 0,
        effects: 0,
        uses: 0,
        needs: 0,
        ..job.count
    };
    Job { count, ..job }
}

// Lists the timed facts; a schedule starts the clock at 0.
pub fn list_timed(job: JobReader, starts: &[u32], order: &mut [u64], marks: &mut [u16])
    requires { WellFormed (seen job) × IsLaid job × (schedule_of starts.now job.head.count.steps ≡ 0)
        × (length order.old ≡ most_timed) × (length marks.old ≡ mark_count) }
    ensures { TimedKnown (seen job.entry) order.new marks.new }
{
    let mut spare = [0u64; MOST_TIMED];
    let only = JobReader {
        bytes: job.bytes,
        head: only_timed(job.head),
    };
    list_points(only, starts, &mut spare, order, marks);
}

// The points of a group beside the timed facts of fact f.
pub fn span_of(begins: &[u16], group: usize, marks: &[u16], f: usize) -> Span
    requires { (group + 1 < length begins.now) × (f + 1 < length marks.now) }
    ensures { (result.low ≡ get_or begins.now group 0) × (result.high ≡ get_or begins.now (group + 1) 0)
        × (result.from ≡ get_or marks.now f 0) × (result.until ≡ get_or marks.now (f + 1) 0) }
{
    let low = begin_at(begins, group);
    let high = begin_at(begins, group + 1);
    let from = begin_at(marks, f);
    let until = begin_at(marks, f + 1);
    Span {
        low,
        high,
        from,
        until,
    }
}
