// Refusal 6, table by table, through one reader of the caller's bytes.
ghost use Rattle.job_reader.specs.Seen.{seen, IsLaid};
ghost use Rattle.std.specs.Prelude.{◌≡◌};
ghost use Rattle.job.specs.Laid.{Laid};
ghost use Rattle.job.specs.Model.{view};
ghost use Rattle.record_check.specs.Records.{table_check, record_check};

use job::layout::{Job, Table};
use job_reader::reader::JobReader;
use ranges::{count_in, first_broken};
use verdict::{Refusal, Verdict};

// Refusal 6 in one table. Inlined, and `first_broken` with it, since a call would copy the reader.
#[inline(always)]
fn check_table(job: JobReader, table: Table) -> Verdict
    requires { IsLaid job }
    ensures { result ≡ table_check (seen job.entry) table }
{
    let n = count_in(job.head, table);
    if let Some(k) = first_broken(job, table, n) {
        return Err(Refusal::RecordOutOfRange(k));
    }
    Ok(())
}

// Refusal 6: the tables in their order, in each the lowest broken record. They lie within the bytes where refusal 5 passed.
pub fn check_tables(job: JobReader) -> Verdict
    ensures { IsLaid job.entry → result ≡ record_check (seen job.entry) }
{
    if !job.is_laid() {
        return Err(Refusal::LayoutDisagrees);
    }
    check_table(job, Table::Facts)?;
    check_table(job, Table::Levels)?;
    check_table(job, Table::Steps)?;
    check_table(job, Table::Conditions)?;
    check_table(job, Table::Effects)?;
    check_table(job, Table::Uses)?;
    check_table(job, Table::Goals)?;
    check_table(job, Table::TimedFacts)?;
    check_table(job, Table::Needs)
}

pub fn check_file(bytes: &[u8], head: Job) -> Verdict
    ensures { Laid head bytes.now → result ≡ record_check (view head bytes.now) }
{
    check_tables(JobReader { bytes, head })
}
