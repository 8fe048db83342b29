// How many records of each kind the notes bring.
ghost use Rattle.std.specs.Prelude.{◌≡◌, List, ℕ, ◌≤◌, length};
ghost use Rattle.std.proofs.Math.Seq.{slice};
ghost use Rattle.job_from_notes.specs.Brought.{count_noted, count_planned};
ghost use Rattle.job_from_notes.specs.Counted.{tables_in, Walked, Counted};

use crate::brought::{Kind, brings, lasts, within};

// How many records each table has that steps bring.
#[derive(Clone, Copy)]
pub struct Totals {
    pub conditions: usize,
    pub effects: usize,
    pub uses: usize,
}

// Those of the notes from a place on, up to the walk's end.
fn count_notes(kind: Kind, said: &[u64], from: usize, duration: usize) -> usize
    requires { from ≤ length said.now }
    ensures { (result ≡ count_noted kind duration (slice from (length said.now) said.now))
        × (result ≤ length said.now) }
{
    let mut count = 0;
    for k in from..said.len() {
        let w = said[k];
        if !within(kind, w) {
            return count;
        }
        count += usize::from(brings(kind, notes::role(w), duration));
    }
    count
}

// Those of all steps.
fn count_planned(kind: Kind, said: &[u64], plan: &[u64], acts: &[u16]) -> usize
    requires { Walked said.now plan.now acts.now }
    ensures { result ≡ count_planned kind said.now plan.now acts.now }
{
    let mut count = 0;
    for s in 0..plan.len() / 3 {
        count += count_notes(kind, said, usize::from(acts[s]), lasts(plan, s));
    }
    count
}

// The records that all steps bring.
pub fn count_records(said: &[u64], plan: &[u64], acts: &[u16]) -> Totals
    requires { Walked said.now plan.now acts.now }
    ensures { Counted said.now plan.now acts.now result }
{
    Totals {
        conditions: count_planned(Kind::Conditions, said, plan, acts),
        effects: count_planned(Kind::Effects, said, plan, acts),
        uses: count_planned(Kind::Uses, said, plan, acts),
    }
}

// The facts that are reached in the end.
pub fn count_goals(said: &[u64]) -> usize
    ensures { (facts levels : ℕ) (numbers plan acts : List ℕ) → length said.now ≤ length numbers
        → result ≡ length (tables_in facts levels said.now numbers plan acts).goals }
{
    count_notes(Kind::Goals, said, 0, 0)
}
