// Refusal 17: the clock against itself, by pairs of timed facts, of which there are at most 64.
ghost use Rattle.job_reader.specs.Seen.{seen, IsLaid};
ghost use Rattle.std.specs.Prelude.{◌≡◌, ◌&&◌, not, ◌<◌, eqb};
ghost use Rattle.job.specs.WellFormed.{Ranged};
ghost use Rattle.against.specs.Clock.{timed_conflicts, timed_check};

use job::records::TimedFact;
use job_reader::reader::JobReader;
use verdict::{Refusal, Verdict};

// Whether two timed facts set one fact both ways at one tick.
fn both_ways(a: TimedFact, b: TimedFact) -> bool
    ensures { result ≡ (eqb a.fact b.fact && eqb a.tick b.tick && not (eqb a.value b.value)) }
{
    (a.fact == b.fact) & (a.tick == b.tick) & (a.value != b.value)
}

// Whether some timed fact sets the fact of timed fact j the other way at its tick.
fn conflicts(job: JobReader, j: u16) -> bool
    requires { IsLaid job × Ranged (seen job) × (j < job.head.count.timed) }
    ensures { result ≡ timed_conflicts (seen job.entry) j }
{
    let own = job.timed(j);
    let n = job.head.count.timed;
    for k in 0..n {
        let other = job.timed(k);
        if both_ways(own, other) {
            return true;
        }
    }
    false
}

// Refusal 17, of a file that refusals 1 to 7 pass.
pub fn check_clock(job: JobReader) -> Verdict
    requires { IsLaid job × Ranged (seen job) }
    ensures { result ≡ timed_check (seen job.entry) }
{
    let n = job.head.count.timed;
    for j in 0..n {
        if conflicts(job, j) {
            return Err(Refusal::TimedFactsConflict(j));
        }
    }
    Ok(())
}
