// The readers of a supplier's two texts: what each says is noted in a list, or the reader stands at the first fault.
#![tactic(auto)]

mod plan_lines;
mod sections;

ghost use Rattle.std.specs.Prelude.{◌≡◌, ℕ, Some, true, false, length, get_or};
ghost use Rattle.grammar.specs.Reading.{action_reading, plan_reading};
ghost use Rattle.notes.specs.Notes.{notes_most};
ghost use Rattle.token_reader.specs.declared.Fault.TheVariants.{OutsideGrammar};
ghost use Rattle.text_reader.specs.Heard.{Heard};

use token_reader::{Fault, Reader, reader_at};

// The longest text.
const TEXT_MOST: usize = 65535;

// A reader that stands before a text which is too long.
fn too_long() -> Reader
    ensures { result ≡ record { at = 0; end = 0; line = 0; count = 0; fault = Some OutsideGrammar } }
{
    Reader {
        at: 0,
        end: 0,
        line: 0,
        count: 0,
        fault: Some(Fault::OutsideGrammar),
    }
}

// Reads the actions, init and the goal.
pub fn read_actions(text: &[u8], said: &mut [u64]) -> Reader
    requires { (length said.old ≡ notes_most) × ((k : ℕ) → get_or said.old k 0 ≡ 0) }
    ensures { Heard false (action_reading text.now) text.now said.new result }
{
    if text.len() > TEXT_MOST {
        return too_long();
    }
    let c = spelling::first(false, text);
    let r = reader_at(c, 0, None);
    sections::read_text(text, said, r)
}

// Reads the plan.
pub fn read_plan(text: &[u8], said: &mut [u64]) -> Reader
    requires { (length said.old ≡ notes_most) × ((k : ℕ) → get_or said.old k 0 ≡ 0) }
    ensures { Heard true (plan_reading text.now) text.now said.new result }
{
    if text.len() > TEXT_MOST {
        return too_long();
    }
    let c = spelling::first(true, text);
    let r = reader_at(c, 0, None);
    plan_lines::read_lines(text, said, r)
}
