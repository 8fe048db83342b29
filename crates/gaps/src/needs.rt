// Needs and the uses of their levels, into the table of gaps: ordered as they lie, with rule 4.
ghost use Rattle.points.specs.Timelines.{schedule};
ghost use Rattle.std.specs.Prelude.{◌≡◌, ℕ, ◌+◌, ◌≤◌, ◌<◌, List, length};
ghost use Rattle.job.specs.Model.{view};
ghost use Rattle.validity.specs.Ticks.{schedule_of};
ghost use Rattle.orders.specs.Gaps.{need_gap};
ghost use Rattle.order_file.specs.Table.{Gaps};
ghost use Rattle.origins.specs.Raised.{Raised};
ghost use Rattle.gaps.specs.Rules.{ValidPoints, span_at};

use job::layout::Job;
use job_reader::reader::JobReader;
use origins::Span;
use points::timelines::Timeline;
use rows::raise_between;
use timeline::word::begin_at;

// The places of a group.
fn span_of(begins: &[u16], group: usize) -> Span
    requires { group + 1 < length begins.now }
    ensures { result ≡ span_at begins.now group }
{
    Span {
        low: begin_at(begins, group),
        high: begin_at(begins, group + 1),
    }
}

// The uses of each level and its needs.
pub fn fill_needs(timeline: Timeline, gaps: &mut [u32])
    requires { (s : List ℕ) × ValidPoints (view timeline.job.head s) (schedule timeline) timeline.points.now timeline.begins.now
        × Gaps gaps.old
        × (timeline.job.head.count.steps ≤ length timeline.starts.now) }
    ensures { (s : List ℕ) → ValidPoints (view timeline.entry.job.head s) (schedule timeline.entry) timeline.entry.points.now timeline.entry.begins.now
        → Raised timeline.entry.job.head.count.steps (need_gap (view timeline.entry.job.head s) (schedule timeline.entry)) gaps.old gaps.new }
{
    let Timeline {
        job: JobReader { head: job, .. },
        starts,
        points,
        begins,
    } = timeline;
    if job.count.needs == 0 {
        return;
    }
    let facts = job.count.facts as usize;
    let n = job.count.levels as usize;
    let steps = job.count.steps as usize;
    for l in 0..n {
        let used = span_of(begins, facts + facts + l);
        let needed = span_of(begins, facts + facts + n + l);
        raise_between(steps, starts, points, used, needed, gaps);
    }
}
