// The header and the records of a job file: refusals 1 to 6.
#![tactic(auto)]

ghost use Rattle.std.specs.Prelude.{◌≡◌};
ghost use Rattle.job.specs.Layout.{job_of};
ghost use Rattle.job.specs.Model.{model_of};
ghost use Rattle.verdict.specs.Verdict.{◌then◌};
ghost use Rattle.header_check.specs.Header.{header_check};
ghost use Rattle.record_check.specs.Records.{record_check, RecordsPromise};

mod tables;

use header_check::check_header;
use job::layout::Job;
use verdict::{Refusal, Verdict};

// What a check refuses, and what it read of the header on the way.
#[derive(Clone, Copy)]
pub struct RefusedFile {
    pub refusal: Refusal,
    pub head: Job,
}

impl From<RefusedFile> for Refusal {
    ghost from_gives = { λ file refusal. refusal ≡ file.refusal };

    fn from(file: RefusedFile) -> Refusal {
        file.refusal
    }
}

// Refusals 1 to 6 of a file whose header was read.
fn check_read(s: &[u8], head: Job) -> Verdict
    requires { head ≡ job_of s.now }
    ensures { result ≡ (header_check s.now then record_check (model_of s.now)) }
{
    check_header(s, head)?;
    tables::check_file(s, head)
}

// Reads the header, once for all, and checks it and the records: refusals 1 to 6. Either way it hands on what was read of the header.
pub fn read_records(s: &[u8]) -> Result<Job, RefusedFile>
    ensures { RecordsPromise s.now result }
{
    let head = Job::read(s);
    match check_read(s, head) {
        Ok(()) => Ok(head),
        Err(refusal) => Err(RefusedFile { refusal, head }),
    }
}
