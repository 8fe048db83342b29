// An effect as one number, and those of a step in a list.
ghost use Rattle.job_reader.specs.Seen.{seen, IsLaid};
ghost use Rattle.std.specs.Prelude.{◌≡◌, map, ◌≤◌, ◌<◌, length, drop};
ghost use Rattle.timeline.specs.Indexed.{Growing};
ghost use Rattle.job.specs.Layout.{most_facts, most_effects};
ghost use Rattle.job.specs.Model.{longest};
ghost use Rattle.job.specs.WellFormed.{Ranged};
ghost use Rattle.against.specs.Pairs.{effects_from};
ghost use Rattle.pair_search.specs.Keys.{key_of, effect_key};

use job::layout::Job;
use job::records::Effect;
use job_reader::reader::JobReader;
use timeline::index::{INDEX_SIZE, before_of, last_of, link};

// A key for each effect that there can be.
pub const MOST_KEYS: usize = Job::EFFECTS as usize;

// How many offsets there are at most, and values.
const AT_SPAN: u32 = 131072;

const VALUE_SPAN: u32 = 2;

// An effect's fact, its offset and its value: two effects of one step that set a fact both ways at one tick differ in the last bit alone.
fn effect_key(e: Effect) -> u32
    requires { (e.fact < most_facts) × (e.at ≤ longest) × (e.value ≤ 1) }
    ensures { result ≡ key_of e }
{
    (e.fact as u32 * AT_SPAN + e.at as u32) * VALUE_SPAN + e.value as u32
}

// Links the effects by their step.
pub fn link_effects(job: JobReader, index: &mut [u16; INDEX_SIZE])
    requires { Ranged (seen job) × Growing (seen job).effect_step 0 index.old }
    ensures { Growing (seen job.entry).effect_step job.entry.head.count.effects index.new }
{
    let n = job.head.count.effects;
    for k in 0..n {
        link(job.effect_step(k) as usize, k, index);
    }
}

// Puts the keys of a step's effects in their order at the end of the list, and answers where they begin. The links lead from the last
// effect to the first.
pub fn list_keys(job: JobReader, index: &[u16], step: u16, keys: &mut [u32]) -> usize
    requires { IsLaid job × Ranged (seen job) × Growing (seen job).effect_step job.head.count.effects index.now
        × (step < job.head.count.steps) × (length keys.old ≡ most_effects) }
    ensures listed { (result ≤ most_effects) × (drop result keys.new
        ≡ map (effect_key (seen job.entry)) (effects_from (seen job.entry) step 0 job.entry.head.count.effects)) }
    ensures keys_len { length keys.new ≡ most_effects }
{
    let n = job.head.count.effects;
    let mut low = MOST_KEYS;
    let mut k = last_of(index, step as usize);
    // A walk along links has no range to go through.
    while k < n {
        low -= 1;
        let e = job.effect(k);
        keys[low] = effect_key(e);
        k = before_of(index, k);
    }
    low
}
