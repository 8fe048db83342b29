// Jobs from a supplier's two texts: the actions, then the plan, then the job.
#![tactic(auto)]

ghost use Rattle.texts_answer.specs.Promise.{TextsPromise};

mod actions;
mod plan;

use actions::read_named;
use naming::{INDEX_SIZE, UNLINKED};
use notes::NOTES_MOST;
use plan::file_plan;
use texts_answer::{TextsAnswer, TextsRefusal};
use token_reader::Fault;

// Makes a job of edition 1 in `out` of an action text and a plan; or refuses, and changes no byte.
pub fn job_from_texts(actions: &[u8], plan: &[u8], out: &mut [u8]) -> TextsAnswer
    ensures { TextsPromise actions.now plan.now out.old out.new result }
{
    let mut said = [0u64; NOTES_MOST];
    let mut index = [UNLINKED; INDEX_SIZE];
    let mut numbers = [0u16; NOTES_MOST];
    let read = read_named(actions, &mut said, &mut index, &mut numbers);
    if let Some(fault) = read.fault {
        let line = read.line as u16;
        return Err(match fault {
            Fault::TooDeep => TextsRefusal::ActionsTooDeep(line),
            Fault::OutsideGrammar => TextsRefusal::ActionsOutside(line),
        });
    }
    let n = read.count;
    file_plan(actions, &said[..n], &index, &numbers, read.names, plan, out)
}
