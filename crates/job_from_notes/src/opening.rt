// What the text says of the beginning: which facts it gives, and the amounts of levels.
ghost use Rattle.std.specs.Prelude.{◌≡◌, cond, ℕ, ◌+◌, ◌≤◌, ◌<◌, length, get_or, set};
ghost use Rattle.std.proofs.Math.Seq.{slice};
ghost use Rattle.job_from_notes.specs.Opening.{states, amount_in, Stated};

use crate::brought::leading;
use crate::noted::Noted;
use notes::{GIVEN, STOCK};

// What is said of the beginning: a fact or a level, told apart by a match, so that contracts can name which.
#[derive(Clone, Copy)]
pub enum Opening {
    Fact,
    Level,
}

// Whether a note says it.
fn states(of: Opening, w: u64) -> bool
    ensures { result ≡ states of w }
{
    let role = notes::role(w);
    match of {
        Opening::Fact => GIVEN <= role,
        Opening::Level => role == STOCK,
    }
}

// What it says: 1 of a fact, of a level the number behind it.
fn amount(of: Opening, said: &[u64], k: usize) -> usize
    requires { k ≤ length said.now }
    ensures { result ≡ amount_in of (slice k (length said.now) said.now) }
{
    match of {
        Opening::Fact => 1,
        Opening::Level => leading(said, k),
    }
}

// Puts a value at a name's number, where the list has room for it. What `get_mut` lends is not known to be written back by a proof.
fn store(n: u16, value: usize, list: &mut [usize])
    ensures { list.new ≡ set list.old n value }
{
    let n = usize::from(n);
    if n < list.len() {
        list[n] = value;
    }
}

// Puts what a note says, if it says something.
fn store_stated(of: Opening, said: &[u64], k: usize, n: u16, list: &mut [usize])
    requires { k < length said.now }
    ensures { list.new
        ≡ cond (states of (get_or said.now k 0))
        (set list.old n (amount_in of (slice (k + 1) (length said.now) said.now)))
        list.old }
{
    if states(of, said[k]) {
        store(n, amount(of, said, k + 1), list);
    }
}

// Fills a list of zeros, from the last note to the first, so that the first one said of a name counts.
pub fn find_stated(of: Opening, noted: Noted, list: &mut [usize])
    requires { (f : ℕ) → f < length list.old → get_or list.old f 0 ≡ 0 }
    ensures { Stated of noted.entry.said.now noted.entry.numbers.now 0 list.old list.new }
{
    for k in (0..noted.said.len()).rev() {
        store_stated(of, noted.said, k, noted.numbers[k], list);
    }
}
