// Refusal 13: what the last points of a goal's fact say of it.
#![tactic(auto)]

ghost use Rattle.points.specs.Timelines.{model};
ghost use Rattle.job_reader.specs.Seen.{seen};
ghost use Rattle.std.specs.Prelude.{◌≡◌, ℕ, ◌≤◌, ◌<◌, length};
ghost use Rattle.laws.specs.Search.{first_where};
ghost use Rattle.job.specs.Clocked.{clocked};
ghost use Rattle.validity.specs.Checks.{goal_fails};
ghost use Rattle.points.specs.Points.{PointsKnown, OneValue};
ghost use Rattle.goals.specs.GoalRuns.{GoalsKnown, LateRun};

use job::records::NO_DEADLINE;
use job_reader::reader::JobReader;
use points::timelines::Timeline;
use timeline::walk::last_run;
use timeline::word::{begin_at, tick_of, value_of};

// Whether the run that ends a group begins after a deadline; the initial value, where it is kept, begins it before all ticks.
fn late(points: &[u64], low: usize, high: usize, kept: bool, deadline: usize) -> bool
    requires { (low < high) × (high ≤ length points.now) }
    ensures { LateRun points.now low high kept deadline result }
{
    if deadline == NO_DEADLINE {
        return false;
    }
    let run = last_run(points, low, high);
    !(kept & (run == low)) & (deadline < tick_of(points[run]))
}

// Whether goal g fails or comes after its deadline.
fn goal_fails(timeline: Timeline, g: u16) -> bool
    requires { GoalsKnown (model timeline) timeline.points.now timeline.begins.now × (g < timeline.job.head.count.goals) }
    ensures { (x : ℕ → ℕ) → PointsKnown (model timeline.entry) x timeline.entry.points.now timeline.entry.begins.now
        → OneValue (model timeline.entry) x → result ≡ goal_fails (model timeline.entry) x g }
{
    let Timeline {
        job,
        points,
        begins,
        ..
    } = timeline;
    let goal = job.goal(g);
    let fact = goal.fact;
    let value = goal.value;
    let deadline = goal.deadline;
    let low = begin_at(begins, fact as usize);
    let high = begin_at(begins, fact as usize + 1);
    let kept = job.fact_initial(fact) == value;
    if high <= low {
        return !kept;
    }
    if value_of(points[high - 1]) != value {
        return true;
    }
    late(points, low, high, kept, deadline)
}

// The lowest goal that fails or comes after its deadline, if one does.
pub fn first_missed(timeline: Timeline) -> Option<u16>
    requires { GoalsKnown (model timeline) timeline.points.now timeline.begins.now }
    ensures { (x : ℕ → ℕ) → PointsKnown (model timeline.entry) x timeline.entry.points.now timeline.entry.begins.now
        → OneValue (model timeline.entry) x
        → result ≡ first_where timeline.entry.job.head.count.goals (goal_fails (model timeline.entry) x) }
{
    let Timeline { job, .. } = timeline;
    for g in 0..job.head.count.goals {
        if goal_fails(timeline, g) {
            return Some(g);
        }
    }
    None
}
