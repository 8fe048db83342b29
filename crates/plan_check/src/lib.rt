// The lines of a plan against the actions that they name: the first that names none or has another duration.
#![tactic(auto)]

ghost use Rattle.std.specs.Prelude.{◌≡◌, List, ℕ, ◌+◌, ◌*◌, ◌≤◌, ◌<◌, length, set, drop};
ghost use Rattle.notes.specs.Notes.{said_in, items_in};
ghost use Rattle.supplied.specs.Plan.{number_in, leading};
ghost use Rattle.naming.specs.Index.{Indexed};
ghost use Rattle.naming.specs.Named.{Readable};
ghost use Rattle.plan_check.specs.Checked.{line_at, Checked};
ghost use Rattle.plan_check.specs.LineAction.{ActionOf};

use naming::find_action;
use notes::{NUMBER, name_at, name_end, role, value};

// The number that a note says, 0 for a name.
fn number_of(note: u64) -> usize
    ensures { (text : List ℕ) → result ≡ number_in (said_in text note) }
{
    if role(note) == NUMBER { value(note) } else { 0 }
}

// The number that item k says, 0 behind the last item.
fn number_at(said: &[u64], k: usize) -> usize
    ensures { (text : List ℕ) → result ≡ leading (drop k (items_in text said.now)) }
{
    if k < said.len() {
        number_of(said[k])
    } else {
        0
    }
}

// The item behind the name of the action of line s, unless the line names no action or has another duration.
fn line_action(
    text: &[u8],
    said: &[u64],
    index: &[u16],
    plan: &[u8],
    lines: &[u64],
    s: usize,
) -> Option<usize>
    requires { Readable text.now said.now × Indexed (items_in text.now said.now) (length said.now) index.now
        × Readable plan.now lines.now × (3 * s + 2 < length lines.now) }
    ensures { ActionOf (items_in text.now said.now) (line_at plan.now lines.now s) result }
{
    let name = lines[3 * s + 1];
    if role(name) == NUMBER {
        return None;
    }
    let found = find_action(text, said, index, plan, name_at(name), name_end(name));
    let action = found?;
    if number_at(said, action + 1) != number_of(lines[3 * s + 2]) {
        return None;
    }
    Some(action + 1)
}

// Keeps where the action of line s stands, if that is one of the steps that there can be. What `get_mut` lends is not known to be written
// back by a proof.
fn keep(acts: &mut [u16], s: usize, behind: usize)
    requires { behind ≤ 65535 }
    ensures { acts.new ≡ set acts.old s behind }
{
    if s < acts.len() {
        acts[s] = behind as u16;
    }
}

// The first line that names no action or has another duration. `lines` has three notes a line: its start, the name, its duration.
pub fn check_lines(
    text: &[u8],
    said: &[u64],
    index: &[u16],
    plan: &[u8],
    lines: &[u64],
    acts: &mut [u16],
) -> Option<usize>
    requires { Readable text.now said.now × Indexed (items_in text.now said.now) (length said.now) index.now
        × Readable plan.now lines.now × (length acts.old ≡ 64) }
    ensures { Checked text.now said.now plan.now lines.now acts.new result }
{
    for s in 0..lines.len() / 3 {
        match line_action(text, said, index, plan, lines, s) {
            Some(behind) => keep(acts, s, behind),
            None => return Some(s),
        }
    }
    None
}
