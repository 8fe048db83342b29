// The earliest limit and the latest start of each step.
ghost use Rattle.job_reader.specs.Seen.{seen};
ghost use Rattle.std.specs.Prelude.{◌≡◌, ℕ, ◌+◌, ◌≤◌, ◌<◌, length};
ghost use Rattle.job.specs.WellFormed.{WellFormed};
ghost use Rattle.order_file.specs.Table.{row_width};
ghost use Rattle.limits.specs.Timed.{most_limit, ClockLimits};
ghost use Rattle.windows.specs.Starts.{Bounded, Limits, LatestStarts};
ghost use Rattle.windows.specs.Loops.{fixed_start, FixedStarts, Lowering, Lowered};

use job::records::NO_DEADLINE;
use job_reader::reader::JobReader;

// The written start of a fixed step, else `none`.
fn fixed_start(job: JobReader, none: u32, k: u16) -> u32
    ensures { result ≡ fixed_start (seen job.entry) none k }
{
    if job.step_fixed(k) == 1 {
        job.step_start(k) as u32
    } else {
        none
    }
}

// Puts the written starts of fixed steps; all others keep the clock's.
fn fix_starts(job: JobReader, at: &mut [u32])
    requires { WellFormed (seen job) × (length at.old ≡ row_width) }
    ensures { FixedStarts (seen job.entry) at.old at.new }
{
    for k in 0..job.head.count.steps {
        at[k as usize] = fixed_start(job, at[k as usize], k);
    }
}

// Turns those that timed facts leave into the earliest limits of the steps.
pub fn limits(job: JobReader, at: &mut [u32])
    requires { WellFormed (seen job) × ((x : ℕ → ℕ) × ClockLimits (seen job) x at.old) }
    ensures limits { Limits (seen job.entry) at.old at.new }
    ensures bounded { Bounded job.entry.head.count.steps most_limit at.new }
{
    fix_starts(job, at);
}

// Lowers the latest start of the step whose effect supports goal g to what the deadline allows; a fixed step keeps its own. A goal supported
// by the initial state or by a timed fact limits nobody: their numbers are above those of all effects.
fn lower_latest(job: JobReader, links: &[u16], g: u16, at: &mut [u32])
    requires { Lowering (seen job) links.now at.old × (g < job.head.count.goals) }
    ensures { Lowered (seen job.entry) links.now g at.old at.new }
{
    let goal = job.goal(g);
    let deadline = goal.deadline;
    let link = links[job.head.count.conditions as usize + g as usize];
    let k = job.effect_step(link);
    if (deadline != NO_DEADLINE)
        & (link < job.head.count.effects)
        & (k < job.head.count.steps)
        & (job.step_fixed(k) != 1)
    {
        let allowed = deadline.saturating_sub(job.effect_at(link)) as u32;
        at[k as usize] = at[k as usize].min(allowed);
    }
}

// Turns those that timed facts leave into the latest starts of the steps, by the links of a schedule.
pub fn latest_starts(job: JobReader, links: &[u16], at: &mut [u32])
    requires { WellFormed (seen job) × (job.head.count.conditions + job.head.count.goals ≤ length links.now)
        × (length at.old ≡ row_width) }
    ensures latest_starts { LatestStarts (seen job.entry) links.now at.old at.new }
    ensures at_len { length at.new ≡ row_width }
{
    fix_starts(job, at);
    for g in 0..job.head.count.goals {
        lower_latest(job, links, g, at);
    }
}
