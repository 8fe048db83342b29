// The timing check: refusals 8 to 13 and 21, on the written starts or on any list of starts.
#![tactic(auto)]

ghost use Rattle.points.specs.Timelines.{model, schedule};
ghost use Rattle.job_reader.specs.Seen.{seen, IsLaid};
ghost use Rattle.std.specs.Prelude.{◌≡◌, true, ℕ};
ghost use Rattle.job.specs.WellFormed.{Ranged};
ghost use Rattle.job.specs.Clocked.{clocked};
ghost use Rattle.verdict.specs.Verdict.{◌then◌};
ghost use Rattle.against.specs.Against.{step_check};
ghost use Rattle.against.specs.Clock.{timed_check};
ghost use Rattle.validity.specs.declared.Rule.TheVariants.{FixedSteps};
ghost use Rattle.validity.specs.Ticks.{schedule_of};
ghost use Rattle.validity.specs.Checks.{rule_check, timing_check, count_check, starts_check};
ghost use Rattle.validity.specs.Promise.{JobPromise, SchedulePromise};
ghost use Rattle.points.specs.Points.{PointsKnown};
ghost use Rattle.points.specs.Words.{Room};
ghost use Rattle.schedule.specs.Timed.{Ordered, Clear, FormedPoints, Settled, settled_check};
ghost use Rattle.schedule.specs.Opened.{Read, Opened, Planned};

use job::layout::Job;
use job_reader::reader::JobReader;
use levels::{bounds, uses};
use opposing::neighbours::any_mixed;
use points::timelines::Timeline;
use points::words::{FEW_BEGINS, FEW_POINTS, MOST_BEGINS, MOST_POINTS, is_small, list_points};
use values::{conditions, effects};
use verdict::{Refusal, Verdict};

// Refusals 12, 13 and 21, of a schedule that 10 and 11 pass.
fn check_settled(timeline: Timeline) -> Verdict
    requires { IsLaid timeline.job × ((x : ℕ → ℕ) × Settled (seen timeline.job) x timeline.points.now timeline.begins.now) }
    ensures { (x : ℕ → ℕ) → Settled (seen timeline.entry.job) x timeline.entry.points.now timeline.entry.begins.now
        → result ≡ settled_check (model timeline.entry) x }
{
    if let Some(l) = bounds::first_out_of_bounds(timeline) {
        return Err(Refusal::LevelOutOfBounds(l));
    }
    if let Some(n) = needs::first_unmet(timeline) {
        return Err(Refusal::NeedUnmet(n));
    }
    if let Some(g) = goals::first_missed(timeline) {
        return Err(Refusal::GoalFails(g));
    }
    Ok(())
}

// Refusals 10 to 13 and 21.
fn check_timing(timeline: Timeline) -> Verdict
    requires { FormedPoints (seen timeline.job) (schedule timeline) timeline.points.now timeline.begins.now × IsLaid timeline.job }
    ensures { result ≡ timing_check (model timeline.entry) (schedule timeline.entry) }
{
    if let Some(e) = effects::first_conflict(timeline) {
        return Err(Refusal::EffectsConflict(e));
    }
    if let Some(c) = conditions::first_contested(timeline) {
        return Err(Refusal::ConditionFails(c));
    }
    check_settled(timeline)
}

// Refusals 8 and 9.
fn check_starts(job: JobReader, starts: &[u32]) -> Verdict
    ensures { result ≡ (count_check (clocked (seen job.entry)) starts.now
        then rule_check (clocked (seen job.entry)) (schedule_of starts.now) FixedSteps) }
{
    let other = starts.len() != job.head.count.steps as usize;
    if other {
        return Err(Refusal::StartsMiscounted);
    }
    let moved = steps::first_moved(job, starts);
    if let Some(k) = moved {
        return Err(Refusal::FixedStepMoved(k));
    }
    Ok(())
}

// Refusals 8 to 13 and 21, of a well-formed job, rule by rule.
fn check_formed(timeline: Timeline) -> Verdict
    requires { FormedPoints (seen timeline.job) (schedule timeline) timeline.points.now timeline.begins.now × IsLaid timeline.job }
    ensures { result ≡ starts_check (model timeline.entry) timeline.entry.starts.now }
{
    let Timeline { job, starts, .. } = timeline;
    check_starts(job, starts)?;
    check_timing(timeline)
}

// Refusals 8, 9, 12, 13 and 21, where the walks found nothing else wrong.
fn check_clear(timeline: Timeline) -> Verdict
    requires { FormedPoints (seen timeline.job) (schedule timeline) timeline.points.now timeline.begins.now
        × Clear (model timeline) (schedule timeline) × IsLaid timeline.job }
    ensures { result ≡ starts_check (model timeline.entry) timeline.entry.starts.now }
{
    let Timeline { job, starts, .. } = timeline;
    check_starts(job, starts)?;
    check_settled(timeline)
}

// Whether the walks find nothing wrong: nothing is against itself, nothing conflicts, and no condition fails.
fn is_clear(timeline: Timeline) -> bool
    requires { Ranged (seen timeline.job) × PointsKnown (model timeline) (schedule timeline) timeline.points.now timeline.begins.now }
    ensures { result ≡ true → Clear (model timeline.entry) (schedule timeline.entry) }
{
    let Timeline {
        job,
        points,
        begins,
        ..
    } = timeline;
    if any_mixed(job.head.count.facts, points, begins) {
        return false;
    }
    if uses::any_twice(job.head.count.facts, job.head.count.levels, points, begins) {
        return false;
    }
    conditions::first_contested(timeline).is_none()
}

// Refusals 7 and 17.
fn check_against(job: JobReader) -> Verdict
    requires { IsLaid job × Ranged (seen job) }
    ensures { result ≡ (step_check (seen job.entry) then timed_check (seen job.entry)) }
{
    self_check::check_steps(job)?;
    self_check::clock::check_clock(job)
}

// Refusals 7 to 13, 17 and 21, where the walks found something wrong: the search by pairs says whether a step or the clock is against itself.
fn check_named(timeline: Timeline) -> Verdict
    requires { Ordered timeline.job.bytes.now timeline.job.head timeline.starts.now timeline.points.now timeline.begins.now }
    ensures { result ≡ (step_check (seen timeline.entry.job) then timed_check (seen timeline.entry.job)
        then starts_check (model timeline.entry) timeline.entry.starts.now) }
{
    let Timeline { job, .. } = timeline;
    check_against(job)?;
    check_formed(timeline)
}

// Refusals 7 to 13, 17 and 21, of points in the order of their ticks.
fn check_ordered(timeline: Timeline) -> Verdict
    requires { Ordered timeline.job.bytes.now timeline.job.head timeline.starts.now timeline.points.now timeline.begins.now }
    ensures { result ≡ (step_check (seen timeline.entry.job) then timed_check (seen timeline.entry.job)
        then starts_check (model timeline.entry) timeline.entry.starts.now) }
{
    if is_clear(timeline) {
        check_clear(timeline)
    } else {
        check_named(timeline)
    }
}

// Refusals 7 to 13, 17 and 21, where there is room for the points.
fn check_within<const POINTS: usize, const BEGINS: usize>(job: JobReader, starts: &[u32]) -> Verdict
    requires { Read job.bytes.now job.head × Room job.head.count POINTS BEGINS }
    ensures { result ≡ (step_check (seen job.entry) then timed_check (seen job.entry)
        then starts_check (clocked (seen job.entry)) starts.now) }
{
    let mut spare = [0u64; POINTS];
    let mut points = [0u64; POINTS];
    let mut begins = [0u16; BEGINS];
    list_points(job, starts, &mut spare, &mut points, &mut begins);
    let timeline = Timeline {
        job,
        starts,
        points: &points,
        begins: &begins,
    };
    check_ordered(timeline)
}

// With little room for a small job.
fn check_read(job: JobReader, starts: &[u32]) -> Verdict
    requires { Read job.bytes.now job.head }
    ensures { result ≡ (step_check (seen job.entry) then timed_check (seen job.entry)
        then starts_check (clocked (seen job.entry)) starts.now) }
{
    if is_small(job.head) {
        check_within::<FEW_POINTS, FEW_BEGINS>(job, starts)
    } else {
        check_within::<MOST_POINTS, MOST_BEGINS>(job, starts)
    }
}

// Refusals 1 to 6, or what was read of the header. A refusal is the job check's.
pub fn open_job(s: &[u8]) -> Result<Job, Refusal>
    ensures { Opened s.now result }
{
    Ok(record_check::read_records(s)?)
}

// The job check of a file that 1 to 6 pass, whose points at its written starts are in order: for whoever needs them as well.
pub fn check_planned(timeline: Timeline) -> Verdict
    requires { Planned timeline.job.bytes.now timeline.job.head timeline.starts.now timeline.points.now timeline.begins.now }
    ensures { JobPromise timeline.entry.job.bytes.now result }
{
    check_ordered(timeline)
}

// Refusals 7, 17, 10 to 13 and 21, on the written starts. Their list stands in a function of its own: behind a `?` it would be cleared
// and copied once more.
fn check_opened(job: JobReader) -> Verdict
    requires { Read job.bytes.now job.head × Ranged (seen job) }
    ensures { JobPromise job.entry.bytes.now result }
{
    let n = job.head.count.steps as usize;
    let starts = ticks::planned_starts(job, n);
    check_read(job, &starts[..n])
}

// Whether a job is sound: accepted, or the first of refusals 1 to 7, 17, 10 to 13 and 21 that fits, on the
// written starts.
pub fn check_job(s: &[u8]) -> Verdict
    ensures { JobPromise s.now result }
{
    let head = open_job(s)?;
    check_opened(JobReader { bytes: s, head })
}

// Whether a list of starts is a sound timing of a job: accepted, or the first of refusals 1 to 7, 17, 8 to 13 and 21 that
// fits.
pub fn check_schedule(s: &[u8], starts: &[u32]) -> Verdict
    ensures { SchedulePromise s.now starts.now result }
{
    let head = record_check::read_records(s)?;
    let job = JobReader { bytes: s, head };
    check_read(job, starts)
}
