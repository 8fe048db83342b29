// The job that notes hold: counted, written, checked, and put into the caller's buffer.
#![tactic(auto)]

ghost use Rattle.std.specs.Prelude.{◌≡◌, ◌||◌, ◌≤◌, ltb, length};
ghost use Rattle.job.specs.Layout.{most_facts, most_levels, most_conditions, most_effects, most_uses, most_goals};
ghost use Rattle.supplied.specs.Job.{model_in};
ghost use Rattle.job_from_notes.specs.Counted.{tables_in, Walked};
ghost use Rattle.job_from_notes.specs.Whole.{longest_job};
ghost use Rattle.texts_answer.specs.FromTexts.{checked, written};
ghost use Rattle.job_filing.specs.Filed.{Filed};

use job::layout::{Counts, Job};
use job_from_notes::file::{LONGEST_JOB, write_job};
use job_from_notes::tally::{Totals, count_goals, count_records};
use naming::Names;
use texts_answer::{TextsAnswer, TextsRefusal};
use verdict::Refusal;

// Checks a job, and writes it out if it is sound and there is room.
fn file_checked(job: &[u8], out: &mut [u8]) -> TextsAnswer
    requires { length job.now ≤ longest_job }
    ensures { (result ≡ checked job.now (length out.old))
        × (out.new ≡ written result job.now out.old) }
{
    schedule::check_job(job)?;
    if out.len() < job.len() {
        return Err(TextsRefusal::BufferTooShort);
    }
    let n = job.len();
    out[..n].copy_from_slice(job);
    Ok(n as u32)
}

// Whether a count of names or records exceeds its highest.
fn too_many(facts: usize, levels: usize, totals: Totals, goals: usize) -> bool
    ensures { result
        ≡ (ltb most_facts facts || ltb most_levels levels || ltb most_conditions totals.conditions || ltb most_effects totals.effects
        || ltb most_uses totals.uses || ltb most_goals goals) }
{
    (facts > Job::FACTS as usize)
        | (levels > Job::LEVELS as usize)
        | (totals.conditions > Job::CONDITIONS as usize)
        | (totals.effects > Job::EFFECTS as usize)
        | (totals.uses > Job::USES as usize)
        | (goals > Job::GOALS as usize)
}

// Files the job of at most 64 steps that notes hold, unless it has too many records.
pub fn file_notes(
    said: &[u64],
    numbers: &[u16],
    plan: &[u64],
    acts: &[u16],
    names: Names,
    out: &mut [u8],
) -> TextsAnswer
    requires { Walked said.now plan.now acts.now × (length said.now ≤ length numbers.now) }
    ensures { Filed
        (model_in
        (tables_in names.facts names.levels said.now numbers.now plan.now acts.now))
        out.old result out.new }
{
    let totals = count_records(said, plan, acts);
    let goals = count_goals(said);
    if too_many(names.facts, names.levels, totals, goals) {
        return Err(TextsRefusal::Refused(Refusal::CountTooHigh));
    }
    let count = Counts {
        facts: names.facts as u16,
        levels: names.levels as u16,
        steps: (plan.len() / 3) as u16,
        conditions: totals.conditions as u16,
        effects: totals.effects as u16,
        uses: totals.uses as u16,
        goals: goals as u16,
        timed: 0,
        needs: 0,
    };
    let mut job = [0u8; LONGEST_JOB];
    let n = write_job(said, numbers, plan, acts, count, &mut job);
    file_checked(&job[..n], out)
}
