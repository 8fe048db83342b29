// The search by pairs for a step that sets a fact both ways at one tick, with how many pairs it compares: a part of refusal 7, and alone.
#![tactic(auto)]

ghost use Rattle.job_reader.specs.Seen.{seen, IsLaid};
ghost use Rattle.std.specs.Prelude.{◌≡◌, List, ℕ, ◌*◌, ◌≤◌, ◌<◌, length};
ghost use Rattle.timeline.specs.Indexed.{Growing};
ghost use Rattle.job.specs.Layout.{most_effects};
ghost use Rattle.job.specs.Model.{view};
ghost use Rattle.job.specs.WellFormed.{Ranged};
ghost use Rattle.against.specs.Pairs.{through_step, pair_search};
ghost use Rattle.pair_search.specs.Answer.{found_in, PairsPromise};

pub mod answer;
mod compare;
mod keys;

use against::{Search, StepSearch};
use answer::PairsAnswer;
use compare::through_pairs;
use job::layout::Job;
use job_reader::reader::JobReader;
use keys::{MOST_KEYS, link_effects, list_keys};
use record_check::read_records;
use timeline::index::{INDEX_SIZE, UNLINKED};

// Through all pairs of a step's effects, by the lower, then the higher, up to the first that sets a fact both ways.
fn search_step(job: JobReader, index: &[u16], step: u16, keys: &mut [u32]) -> Search
    requires { IsLaid job × Ranged (seen job) × Growing (seen job).effect_step job.head.count.effects index.now
        × (step < job.head.count.steps) × (length keys.old ≡ most_effects) }
    ensures value { (result ≡ through_step (seen job.entry) step) × (result.compared ≤ most_effects * most_effects) }
    ensures keys_len { length keys.new ≡ most_effects }
{
    let low = list_keys(job, index, step, keys);
    through_pairs(&keys[low..])
}

// Step by step, up to the first pair found, in a file that refusals 1 to 6 pass.
pub fn search_pairs(job: JobReader) -> StepSearch
    requires { IsLaid job × Ranged (seen job) }
    ensures { result ≡ pair_search (seen job.entry) }
{
    let mut index = [UNLINKED; INDEX_SIZE];
    link_effects(job, &mut index);
    let mut keys = [0u32; MOST_KEYS];
    let n = job.head.count.steps;
    let mut compared = 0;
    for step in 0..n {
        let search = search_step(job, &index, step, &mut keys);
        compared += search.compared;
        if search.found {
            return StepSearch { compared, step };
        }
    }
    StepSearch { compared, step: n }
}

// What the search found: a pair, if its step is one of the job's.
fn found_in(search: StepSearch, job: Job) -> PairsAnswer
    ensures { (s : List ℕ) → result ≡ found_in (view job s) search }
{
    let step = search.step;
    if step < job.count.steps {
        PairsAnswer::Found(search.compared, step)
    } else {
        PairsAnswer::NoneFound(search.compared)
    }
}

// The search alone: how many pairs were compared, up to and with the first that sets a fact both ways, and its step; or the first of
// refusals 1 to 6 that fits.
pub fn compare_pairs(s: &[u8]) -> PairsAnswer
    ensures { PairsPromise s.now result }
{
    match read_records(s) {
        Ok(head) => {
            let job = JobReader { bytes: s, head };
            found_in(search_pairs(job), head)
        }
        Err(file) => PairsAnswer::Refused(file.refusal),
    }
}
