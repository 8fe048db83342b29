// The action text, with its names.
ghost use Rattle.std.specs.Prelude.{◌≡◌, ℕ, ◌<◌, length, get_or};
ghost use Rattle.notes.specs.Notes.{notes_most};
ghost use Rattle.naming.specs.Index.{index_size, unlinked};
ghost use Rattle.from_pddl.specs.Understood.{Understood};

use naming::{Names, number_names};
use text_reader::read_actions;
use token_reader::Fault;

// What was read: the fault that was met, with its line, how many notes were made, and how many names there are.
#[derive(Clone, Copy)]
pub struct Actions {
    pub fault: Option<Fault>,
    pub line: usize,
    pub count: usize,
    pub names: Names,
}

// Reads an action text. A clash of names comes before a fault further on.
pub fn read_named(text: &[u8], said: &mut [u64], index: &mut [u16], numbers: &mut [u16]) -> Actions
    requires { (length said.old ≡ notes_most) × ((k : ℕ) → get_or said.old k 0 ≡ 0) × (length numbers.old ≡ notes_most)
        × (length index.old ≡ index_size) × ((k : ℕ) → k < index_size → get_or index.old k 0 ≡ unlinked) }
    ensures { Understood text.now said.new numbers.new index.new result }
{
    let r = read_actions(text, said);
    let count = r.count;
    match number_names(text, &said[..count], index, numbers) {
        Ok(names) => Actions {
            fault: r.fault,
            line: r.line,
            count,
            names,
        },
        Err(clash) => Actions {
            fault: Some(Fault::OutsideGrammar),
            line: notes::line(said[clash.item]),
            count,
            names: Names {
                facts: 0,
                levels: 0,
            },
        },
    }
}
