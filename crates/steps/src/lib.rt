// Refusal 9: a fixed step has its written start.
#![tactic(auto)]

ghost use Rattle.job_reader.specs.Seen.{seen};
ghost use Rattle.std.specs.Prelude.{◌≡◌};
ghost use Rattle.laws.specs.Search.{first_where};
ghost use Rattle.job.specs.Clocked.{clocked};
ghost use Rattle.validity.specs.Ticks.{schedule_of};
ghost use Rattle.validity.specs.Checks as spec;

use job_reader::reader::JobReader;
use ticks::start_of;

fn moved(job: JobReader, starts: &[u32], k: u16) -> bool
    ensures { result ≡ spec.moved (clocked (seen job.entry)) (schedule_of starts.now) k }
{
    (job.step_fixed(k) == 1) & (start_of(starts, k) != job.step_start(k))
}

// The lowest fixed step that has another start, if one has.
pub fn first_moved(job: JobReader, starts: &[u32]) -> Option<u16>
    ensures { result ≡ first_where job.entry.head.count.steps (spec.moved (clocked (seen job.entry)) (schedule_of starts.now)) }
{
    for k in 0..job.head.count.steps {
        if moved(job, starts, k) {
            return Some(k);
        }
    }
    None
}
