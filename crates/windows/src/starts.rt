// Earliest starts: rounds over a table of gaps, until the first that changes nothing.
ghost use Rattle.std.specs.Prelude.{◌≡◌, max, ◌+◌, ◌-◌, ◌≤◌, ◌<◌};
ghost use Rattle.rounds.specs.Rounds.{demand, raised, rounds, earliest};
ghost use Rattle.windows.specs.Loops.{above_starts, Given};
ghost use Rattle.limits.specs.Timed.{most_limit};
ghost use Rattle.little_endian.specs.Bytes.{sign_bias};
ghost use Rattle.order_file.specs.Contents.{gap_bias};
ghost use Rattle.order_file.specs.Table.{row_width, entry_bias, gap_in, start_in, Gaps};
ghost use Rattle.windows.specs.Starts.{Bounded};
ghost use Rattle.laws.specs.Listed.{Filled};

use order_file::layout::NO_LATEST;
use order_file::table::{ENTRY_BIAS, WIDTH};

// A start that no step has.
const NO_START: u32 = NO_LATEST;

// A start for each step.
#[derive(Clone, Copy)]
pub struct Starts {
    pub at: [u32; WIDTH],
}

// What the order from i, which starts at t, demands of k, plus the bias of an entry; less than the bias for no order.
fn demanded(gaps: &[u32], i: usize, k: usize, t: u32) -> u32
    requires { Gaps gaps.now × (i < row_width) × (k < row_width) × (t < above_starts) }
    ensures { result - entry_bias ≡ demand (gap_in gaps.now) gap_bias i k t }
{
    t + gaps[WIDTH * i + k]
}

// The higher of a start and of a demand that has the bias of an entry, which is taken off with a sign: a demand of no order is below 0.
fn raised_over(start: u32, demand: u32) -> u32
    requires { (start < sign_bias) × (demand < sign_bias) }
    ensures { result ≡ max start (demand - entry_bias) }
{
    let due = demand as i32 - ENTRY_BIAS as i32;
    if (start as i32) < due {
        due as u32
    } else {
        start
    }
}

// A start of k, raised to what that order demands.
fn raised_to(start: u32, gaps: &[u32], i: usize, k: usize, t: u32) -> u32
    requires { Gaps gaps.now × (i < row_width) × (k < row_width) × (t < above_starts) × (start ≤ above_starts + gap_bias) }
    ensures { result ≡ max start (demand (gap_in gaps.now) gap_bias i k t) }
{
    raised_over(start, demanded(gaps, i, k, t))
}

// Raises the first n starts to what the orders from i, which starts at t, demand.
fn raise_first(n: usize, gaps: &[u32], i: usize, t: u32, at: &mut [u32; WIDTH])
    requires { Gaps gaps.now × Bounded n (above_starts + gap_bias) at.old × (n ≤ row_width) × (i < row_width) × (t < above_starts) }
    ensures { Filled n (λ k. max (start_in at.old k) (demand (gap_in gaps.now) gap_bias i k t)) at.old
        at.new }
{
    for k in 0..n {
        at[k] = raised_to(at[k], gaps, i, k, t);
    }
}

// The same of all starts, in a loop of known length, which the compiler unrolls.
fn raise_all(gaps: &[u32], i: usize, t: u32, at: &mut [u32; WIDTH])
    requires { Gaps gaps.now × Bounded row_width (above_starts + gap_bias) at.old × (i < row_width) × (t < above_starts) }
    ensures { Filled row_width (λ k. max (start_in at.old k) (demand (gap_in gaps.now) gap_bias i k t)) at.old
        at.new }
{
    for k in 0..WIDTH {
        at[k] = raised_to(at[k], gaps, i, k, t);
    }
}

// The same of the first n, which in a full job are all.
fn raise_starts(n: usize, gaps: &[u32], i: usize, t: u32, at: &mut [u32; WIDTH])
    requires { Gaps gaps.now × Bounded n (above_starts + gap_bias) at.old × (n ≤ row_width) × (i < row_width) × (t < above_starts) }
    ensures { Filled n (λ k. max (start_in at.old k) (demand (gap_in gaps.now) gap_bias i k t)) at.old
        at.new }
{
    if n == WIDTH {
        raise_all(gaps, i, t, at);
    } else {
        raise_first(n, gaps, i, t, at);
    }
}

impl Starts {
    // The starts of the first n steps after a round, from those before it. A step that starts as it did before the last round, in last,
    // demanded the same then, so its row is skipped.
    pub fn round(
        mut self,
        before: &[u32; WIDTH],
        last: &[u32; WIDTH],
        n: usize,
        gaps: &[u32],
    ) -> Starts
        requires { Gaps gaps.now × Bounded n (above_starts - 1) before.now × (n ≤ row_width)
            × Given n (gap_in gaps.now) gap_bias (start_in last.now) (start_in before.now) × (self.at ≡ before.now) }
        ensures { Filled n (raised n (gap_in gaps.now) gap_bias (start_in before.now)) before.now result.at }
    {
        for i in 0..n {
            if last[i] != before[i] {
                raise_starts(n, gaps, i, before[i], &mut self.at);
            }
        }
        self
    }
}

// Puts the earliest starts of the first n steps at or after their limits, and hands back the rounds up to the first that changes nothing,
// at most n.
pub fn earliest_starts(
    limits: &[u32; WIDTH],
    n: usize,
    gaps: &[u32],
    at: &mut [u32; WIDTH],
) -> usize
    requires { Gaps gaps.now × Bounded n most_limit limits.now × (n ≤ row_width) }
    ensures value { result ≡ rounds n (gap_in gaps.now) gap_bias (start_in limits.now) }
    ensures filled { Filled n (earliest n (gap_in gaps.now) gap_bias (start_in limits.now)) limits.now at.new }
    ensures upper_bound { result ≤ n }
{
    let mut starts = Starts { at: *limits };
    let mut last = [NO_START; WIDTH];
    for rounds in 0..n {
        let next = starts.round(&starts.at, &last, n, gaps);
        if next.at[..n] == starts.at[..n] {
            *at = next.at;
            return rounds + 1;
        }
        last = starts.at;
        starts = next;
    }
    *at = starts.at;
    n
}
