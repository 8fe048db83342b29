// Refusals 1 to 5: the header and the layout.
#![tactic(auto)]

ghost use Rattle.std.specs.Prelude.{◌≡◌};
ghost use Rattle.job.specs.Layout.{job_of};
ghost use Rattle.header_check.specs.Header.{edition_known, marks_wrong, layout_agrees, header_check};

use job::layout::{
    Job, LATEST_EDITION, NEEDS_EDITION, SHORTEST_HEADER, TIMED_EDITION, count_too_high,
    header_width, serial_mark,
};
use verdict::{Refusal, Verdict};

fn edition_known(edition: u16) -> bool
    ensures { result ≡ edition_known edition }
{
    (1 <= edition) & (edition <= LATEST_EDITION)
}

// Only the edition that counts needs has a zero behind that count.
fn marks_wrong(s: &[u8], job: Job) -> bool
    ensures { result ≡ marks_wrong s.now job }
{
    (1 < serial_mark(s))
        | ((job.edition < TIMED_EDITION) & (job.count.timed != 0))
        | ((job.edition == NEEDS_EDITION) & (little_endian::u16_at(s, 54) != 0))
}

// Only an edition with timed facts has their offset, and only one with needs theirs.
fn layout_agrees(s: &[u8], job: Job) -> bool
    ensures { result ≡ layout_agrees s.now job }
{
    let at = job.at;
    (little_endian::u32_at(s, 20) == at.facts as usize)
        & (little_endian::u32_at(s, 24) == at.levels as usize)
        & (little_endian::u32_at(s, 28) == at.steps as usize)
        & (little_endian::u32_at(s, 32) == at.conditions as usize)
        & (little_endian::u32_at(s, 36) == at.effects as usize)
        & (little_endian::u32_at(s, 40) == at.uses as usize)
        & (little_endian::u32_at(s, 44) == at.goals as usize)
        & ((job.edition < TIMED_EDITION) | (little_endian::u32_at(s, 48) == at.timed as usize))
        & ((job.edition != NEEDS_EDITION) | (little_endian::u32_at(s, 56) == at.needs as usize))
        & (s.len() == at.end as usize)
}

// Refusals 1 to 5, of a file whose header was read.
pub fn check_header(s: &[u8], job: Job) -> Verdict
    requires { job ≡ job_of s.now }
    ensures { result ≡ header_check s.now }
{
    if s.len() < SHORTEST_HEADER {
        return Err(Refusal::FileTooShort);
    }
    if !edition_known(job.edition) {
        return Err(Refusal::UnknownEdition);
    }
    let width = header_width(job.edition);
    if s.len() < width {
        return Err(Refusal::FileTooShort);
    }
    if marks_wrong(s, job) {
        return Err(Refusal::MarkOutOfRange);
    }
    let high = count_too_high(job.count);
    if high {
        return Err(Refusal::CountTooHigh);
    }
    let agrees = layout_agrees(s, job);
    if !agrees {
        return Err(Refusal::LayoutDisagrees);
    }
    Ok(())
}
