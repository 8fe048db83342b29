// The plan, once the action text is understood.
ghost use Rattle.notes.specs.Notes.{items_in};
ghost use Rattle.naming.specs.Named.{Readable, AllNamed};
ghost use Rattle.from_pddl.specs.Answered.{Answered};

use job::layout::Job;
use job_filing::file_notes;
use naming::Names;
use notes::NOTES_MOST;
use plan_check::check_lines;
use text_reader::read_plan;
use texts_answer::{TextsAnswer, TextsRefusal};
use verdict::Refusal;

// Reads a plan, holds its lines against the actions, and files the job of both.
pub fn file_plan(
    text: &[u8],
    said: &[u64],
    index: &[u16],
    numbers: &[u16],
    names: Names,
    plan: &[u8],
    out: &mut [u8],
) -> TextsAnswer
    requires { Readable text.now said.now × AllNamed text.now said.now numbers.now index.now names }
    ensures { Answered (items_in text.now said.now) plan.now out.old result out.new }
{
    let mut lines = [0u64; NOTES_MOST];
    let r = read_plan(plan, &mut lines);
    if r.fault.is_some() {
        return Err(TextsRefusal::PlanOutside(r.line as u16));
    }
    let n = r.count;
    let mut acts = [0u16; Job::STEPS as usize];
    if let Some(first) = check_lines(text, said, index, plan, &lines[..n], &mut acts) {
        let w = lines[3 * first + 1];
        return Err(TextsRefusal::PlanDiffers(notes::line(w) as u16));
    }
    if n / 3 > Job::STEPS as usize {
        return Err(TextsRefusal::Refused(Refusal::CountTooHigh));
    }
    file_notes(said, numbers, &lines[..n], &acts, names, out)
}
