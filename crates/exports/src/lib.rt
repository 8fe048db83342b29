// The functions that C and Rust callers link. Each asks one entry point and packs its answer into one number.
#![tactic(auto)]

ghost use Rattle.std.specs.Prelude.{◌≡◌, length};
ghost use Rattle.validity.specs.Checks.{job_check, schedule_check};
ghost use Rattle.validity.specs.Promise.{JobPromise, SchedulePromise};
ghost use Rattle.order_answers.specs.Answers.{header_read, record_read, alike_answer, HeaderPromise, RecordPromise, AlikePromise};
ghost use Rattle.partialize.specs.Partialization.{answer_to, buffer_after};
ghost use Rattle.partialize.specs.Demands.{Promise};
ghost use Rattle.pair_search.specs.Answer.{pairs_answer, PairsPromise};
ghost use Rattle.texts_answer.specs.FromTexts as texts;
ghost use Rattle.texts_answer.specs.Promise.{TextsPromise};
ghost use Rattle.packing.specs.Packed.{packed_verdict, packed_answer, packed_texts, packed_pairs, packed_alike, packed_header, packed_record};
ghost use Rattle.listing.specs.Listed.{filled, header_list, record_list};
ghost use Rattle.exports.specs.Packs.{Packs};

use listing::{list_header, list_record};
use packing::{
    packed_alike, packed_answer, packed_header, packed_pairs, packed_record, packed_texts,
    packed_verdict,
};

// Whether a job is sound.
#[unsafe(no_mangle)]
pub extern "C" fn jobs_check(job: &[u8]) -> u64
    ensures { Packs (JobPromise job.now) packed_verdict (job_check job.now) result }
{
    let planned = schedule::check_job(job);
    packed_verdict(planned)
}

// Whether a list of starts is a sound timing of a job.
#[unsafe(no_mangle)]
pub extern "C" fn jobs_check_schedule(job: &[u8], starts: &[u32]) -> u64
    ensures { Packs (SchedulePromise job.now starts.now) packed_verdict
        (schedule_check job.now starts.now) result }
{
    let timed = schedule::check_schedule(job, starts);
    packed_verdict(timed)
}

// How many pairs of effects the search for a fact set both ways compares, and the step of the pair that it finds.
#[unsafe(no_mangle)]
pub extern "C" fn jobs_pairs(job: &[u8]) -> u64
    ensures { Packs (PairsPromise job.now) packed_pairs (pairs_answer job.now) result }
{
    let a = pair_search::compare_pairs(job);
    packed_pairs(a)
}

// Loosens a job into an order file in `out`.
#[unsafe(no_mangle)]
pub extern "C" fn jobs_partialize(job: &[u8], out: &mut [u8]) -> u64
    ensures packs { Packs (Promise job.now out.old out.new) packed_answer
        (answer_to job.now (length out.old)) result }
    ensures out_after { out.new ≡ buffer_after job.now out.old }
{
    let a = partialize::partialize(job, out);
    packed_answer(a)
}

// Makes a job in `out` of a supplier's action text and plan.
#[unsafe(no_mangle)]
pub extern "C" fn jobs_from_pddl(actions: &[u8], plan: &[u8], out: &mut [u8]) -> u64
    ensures packs { Packs (TextsPromise actions.now plan.now out.old out.new) packed_texts
        (texts.answer_to actions.now plan.now (length out.old)) result }
    ensures out_after { out.new ≡ texts.buffer_after actions.now plan.now out.old }
{
    let a = from_pddl::job_from_texts(actions, plan, out);
    packed_texts(a)
}

// Whether two order files are alike.
#[unsafe(no_mangle)]
pub extern "C" fn jobs_alike(a: &[u8], b: &[u8]) -> u64
    ensures { Packs (AlikePromise a.now b.now) packed_alike (alike_answer a.now b.now) result }
{
    let x = order_reader::alike(a, b);
    packed_alike(x)
}

// Reads an order file's header into `list`.
#[unsafe(no_mangle)]
pub extern "C" fn jobs_order_header(file: &[u8], list: &mut [u32]) -> u64
    ensures packs { Packs (HeaderPromise file.now) packed_header (header_read file.now) result }
    ensures list_after { list.new ≡ filled list.old (header_list (header_read file.now)) }
{
    let a = order_reader::read_header(file);
    list_header(a, list);
    packed_header(a)
}

// Reads one record of an order file into `list`: of table 0 a window, of 1 an order, of 2 a link.
#[unsafe(no_mangle)]
pub extern "C" fn jobs_order_record(file: &[u8], table: u32, number: u32, list: &mut [u32]) -> u64
    ensures packs { Packs (RecordPromise file.now table number) packed_record (record_read file.now table number) result }
    ensures list_after { list.new ≡ filled list.old (record_list (record_read file.now table number)) }
{
    let a = order_reader::read_record(file, table, number);
    list_record(a, list);
    packed_record(a)
}
