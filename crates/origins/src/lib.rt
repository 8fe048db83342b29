// What orders lead from, and one order into the table of gaps.
#![tactic(auto)]

ghost use Rattle.job_reader.specs.Seen.{seen};
ghost use Rattle.std.specs.Prelude.{◌≡◌, ◌+◌, ◌%◌, ◌≤◌, ◌<◌};
ghost use Rattle.job.specs.Model.{longest};
ghost use Rattle.validity.specs.Ticks.{schedule_of};
ghost use Rattle.orders.specs.Gaps as spec;
ghost use Rattle.timeline.specs.Words.{value_span};
ghost use Rattle.order_file.specs.Table.{gap_of_entry, Gaps, row_width};
ghost use Rattle.origins.specs.Raised.{single, EntryKnown, Raised};
ghost use Rattle.origins.specs.Points.{turned, offset_of, point_origin, last_origin, Notable};

use job_reader::reader::JobReader;
use order_file::table::{ENTRY_BIAS, WIDTH, higher};
use timeline::word::{VALUE_SPAN, number_of, step_of, tick_of, value_of};

// The entry of "strictly before" between two points that both lie at their step's start.
pub const AT_START: usize = ENTRY_BIAS as usize + 1;

// From one value of two to the same, or to the other.
#[derive(Clone, Copy, Debug, PartialEq, Eq)]
pub enum Turn {
    Same,
    Other,
}

impl Turn {
    // The value to which it leads.
    fn of(self, value: u16) -> u16
        requires { value < value_span }
        ensures { result ≡ (value + turned self) % value_span }
    {
        (value + self as u16) % VALUE_SPAN as u16
    }
}

// The places of a fact: its setters from `low` up to `high`, its conditions from `after` up to `until`.
#[derive(Clone, Copy)]
pub struct Fact {
    pub low: usize,
    pub high: usize,
    pub after: usize,
    pub until: usize,
}

// Places from `low` up to `high`.
#[derive(Clone, Copy)]
pub struct Span {
    pub low: usize,
    pub high: usize,
}

// What orders lead from, `at` into a step, and which points they lead to: those with a value, from a tick on.
#[derive(Clone, Copy)]
pub struct Origin {
    pub step: u16,
    pub at: usize,
    pub value: u16,
    pub tick: usize,
}

// How far into its step a point lies.
pub fn offset_of(starts: &[u32], word: u64) -> usize
    requires { Notable starts.now word }
    ensures { result ≡ offset_of (schedule_of starts.now) word }
{
    tick_of(word) - starts[step_of(word) as usize] as usize
}

// From a point to later ones of the other value or of the same, by `turn`.
pub fn point_origin(starts: &[u32], word: u64, turn: Turn) -> Origin
    requires { Notable starts.now word }
    ensures { result ≡ point_origin (schedule_of starts.now) turn word }
{
    Origin {
        step: step_of(word),
        at: offset_of(starts, word),
        value: turn.of(value_of(word)),
        tick: tick_of(word) + 1,
    }
}

// From the last tick of a condition to setters of the other value. They are looked for from its first tick: what opposes it and is not
// before the one is after the other, as the schedule is valid.
pub fn last_origin(job: JobReader, word: u64) -> Origin
    ensures { result ≡ last_origin (seen job.entry) word }
{
    Origin {
        step: step_of(word),
        at: job.condition_to(number_of(word)),
        value: Turn::Other.of(value_of(word)),
        tick: tick_of(word),
    }
}

// The entry of "p strictly before q".
pub fn strictly(p: usize, q: usize) -> u32
    requires { (p ≤ longest) × (q ≤ longest) }
    ensures { (gap_of_entry result ≡ spec.strictly p q) × EntryKnown result }
{
    (p + AT_START - q) as u32
}

// Keeps the larger of an entry and the one in the table.
pub fn raise(i: u16, k: u16, entry: u32, gaps: &mut [u32])
    requires { Gaps gaps.old × (i < row_width) × (k < row_width) × EntryKnown entry }
    ensures { Raised row_width (single i k (gap_of_entry entry)) gaps.old gaps.new }
{
    let at = WIDTH * i as usize + k as usize;
    let old = gaps[at];
    gaps[at] = higher(old, entry);
}
