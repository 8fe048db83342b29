// Whether a job file is well formed: refusals 1 to 7, then 17.
#![tactic(auto)]

ghost use Rattle.std.specs.Prelude.{◌≡◌};
ghost use Rattle.job.specs.Model.{model_of};
ghost use Rattle.job_reader.specs.Seen.{seen, IsLaid};
ghost use Rattle.form.specs.Refusals.{form_check, FormPromise};
ghost use Rattle.form.specs.Refused.{FormRefusal};
ghost use Rattle.verdict.specs.Verdict.{number as number_of, ◌then◌};
ghost use Rattle.against.specs.Against.{step_check};
ghost use Rattle.against.specs.Clock.{timed_check};
ghost use Rattle.job.specs.WellFormed.{Ranged, WellFormed};

use job::layout::Job;
use job_reader::reader::JobReader;
use record_check::{RefusedFile, read_records};
use self_check::check_steps;
use self_check::clock::check_clock;
use verdict::Verdict;

// Refusals 7 and 17.
fn check_against(job: JobReader) -> Verdict
    requires { IsLaid job × Ranged (seen job) }
    ensures { result ≡ (step_check (seen job.entry) then timed_check (seen job.entry)) }
{
    check_steps(job)?;
    check_clock(job)
}

// Reads the header, once for all, and checks the form. Either way it hands on what was read of the header.
pub fn read_form(s: &[u8]) -> Result<Job, RefusedFile>
    ensures { FormPromise s.now result }
{
    let head = read_records(s)?;
    let job = JobReader { bytes: s, head };
    match check_against(job) {
        Ok(()) => Ok(head),
        Err(refusal) => Err(RefusedFile { refusal, head }),
    }
}

// Whether a file is well formed: accepted, or the first of refusals 1 to 7 and 17 that fits. Of an accepted file every record is in
// range, names what exists, and neither a step nor the clock is against itself; a refusal's number and place name what fails first.
pub fn check_form(s: &[u8]) -> Verdict
    ensures value { result ≡ form_check s.now }
    ensures well_formed { number_of result ≡ 0 → WellFormed (model_of s.now) }
    ensures form_refusal { FormRefusal s.now result }
{
    read_form(s)?;
    Ok(())
}
