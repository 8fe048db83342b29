// Names of the action text: which of them may not stand where they do, the number of each among those of its kind, and the action of a
// name.
#![tactic(auto)]

ghost use Rattle.std.specs.Prelude.{◌≡◌, ℕ, ◌≤◌, ◌<◌, length, get_or};
ghost use Rattle.std.proofs.Math.Seq.{slice};
ghost use Rattle.notes.specs.Notes.{notes_most, items_in};
ghost use Rattle.naming.specs.Index.{unlinked, index_size, Indexed};
ghost use Rattle.naming.specs.Named.{Readable, Found, ActionAt};

mod lookup;
mod passing;

use lookup::{KEYS, find};
use notes::{ACTION, NOTES_MOST, role};
use passing::{KINDS, Kind, MARKS, pass_item};

// The index of names: an entry a key, then one a note; and what stands in a free one.
pub const INDEX_SIZE: usize = KEYS + NOTES_MOST;

pub const UNLINKED: u16 = 65535;

// How many names of facts and of levels there are.
#[derive(Clone, Copy)]
pub struct Names {
    pub facts: usize,
    pub levels: usize,
}

// The first item that may not stand behind those before it.
#[derive(Clone, Copy)]
pub struct Clash {
    pub item: usize,
}

// Numbers the names of each kind as they first appear, up to the first item that may not stand behind those before it.
pub fn number_names(
    text: &[u8],
    said: &[u64],
    index: &mut [u16],
    numbers: &mut [u16],
) -> Result<Names, Clash>
    requires { Readable text.now said.now × (length index.old ≡ index_size)
        × ((j : ℕ) → j < index_size → get_or index.old j 0 ≡ unlinked) × (length numbers.old ≡ notes_most) }
    ensures { Found text.now said.now numbers.new index.new result }
{
    let mut marks = [false; MARKS];
    let mut counts = [0u16; KINDS];
    for k in 0..said.len() {
        if !pass_item(text, said, k, index, numbers, &mut marks, &mut counts) {
            return Err(Clash { item: k });
        }
    }
    Ok(Names {
        facts: usize::from(counts[Kind::Facts.index()]),
        levels: usize::from(counts[Kind::Levels.index()]),
    })
}

// The item that is the action of a name in a plan. If the name appears first as something else, no action has it.
pub fn find_action(
    text: &[u8],
    said: &[u64],
    index: &[u16],
    plan: &[u8],
    at: usize,
    end: usize,
) -> Option<usize>
    requires { Readable text.now said.now × Indexed (items_in text.now said.now) (length said.now) index.now
        × (at ≤ end) × (end ≤ length plan.now) }
    ensures { ActionAt text.now said.now (slice at end plan.now) result }
{
    let first = find(text, said, index, said.len(), &plan[at..end])?;
    let is_action = role(said[first]) == ACTION;
    if is_action { Some(first) } else { None }
}
