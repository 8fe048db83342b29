// Facts, (not ..) and changes of a level, each read as one symbol of the grammar.
ghost use Rattle.std.specs.Prelude.{◌≡◌, false, ◌+◌, ◌≤◌, ◌<◌};
ghost use Rattle.grammar.specs.Reader.{literal, literal_body, change, change_body, level_symbols};
ghost use Rattle.notes.specs.Notes.{roles, fall_role, role_of, place_of};
ghost use Rattle.token_reader.specs.Reading.{Ready, Reads, Leads};
ghost use Rattle.item_reader.specs.Kinds.{point_of, set_place, later};

use notes::{Place, fact_role};
use token_reader::{Reader, sees_word, take_amount, take_bracket, take_name, take_word};

// A fact or (not ..) behind its bracket.
pub fn read_fact(text: &[u8], said: &mut [u64], r: Reader, place: Place) -> Reader
    requires { Ready false text.now said.old r }
    ensures { Reads false text.now said.old r (literal_body (place_of place)) said.new result }
{
    if sees_word(false, text, r, b"not") {
        let inner = take_word(false, text, r, b"not");
        let opened = take_bracket(false, text, inner, b'(');
        let role = fact_role(place, false);
        let named = take_name(false, text, said, opened, role);
        let closed = take_bracket(false, text, named, b')');
        return take_bracket(false, text, closed, b')');
    }
    let role = fact_role(place, true);
    let named = take_name(false, text, said, r, role);
    take_bracket(false, text, named, b')')
}

// A fact or (not ..).
pub fn read_literal(text: &[u8], said: &mut [u64], r: Reader, place: Place) -> Reader
    requires { Ready false text.now said.old r }
    ensures { Reads false text.now said.old r (literal (place_of place)) said.new result }
{
    let opened = take_bracket(false, text, r, b'(');
    read_fact(text, said, opened, place)
}

// A level and its amount, up to the bracket.
pub fn read_level(text: &[u8], said: &mut [u64], r: Reader, role: usize) -> Reader
    requires { Ready false text.now said.old r × (role ≡ 0 → ⊥) × (role < roles) }
    ensures { Leads false text.now said.old r (level_symbols (role_of role)) said.new result }
{
    let opened = take_bracket(false, text, r, b'(');
    let named = take_name(false, text, said, opened, role);
    let closed = take_bracket(false, text, named, b')');
    let counted = take_amount(false, text, said, closed);
    take_bracket(false, text, counted, b')')
}

// The role of a rise or a fall at the start, or the one more at the end.
fn role_at(first: usize, end: bool) -> usize
    requires { first ≤ fall_role }
    ensures { result ≡ later first end }
{
    if end { first + 1 } else { first }
}

// Where a fact stands that is set.
fn set_place(end: bool) -> Place
    ensures { result ≡ set_place end }
{
    if end {
        Place::SetAtEnd
    } else {
        Place::SetAtStart
    }
}

// An effect's fact, (not ..), (increase ..) or (decrease ..) behind its bracket.
fn read_change_body(text: &[u8], said: &mut [u64], r: Reader, end: bool) -> Reader
    requires { Ready false text.now said.old r }
    ensures { Reads false text.now said.old r (change_body (point_of end)) said.new result }
{
    if sees_word(false, text, r, b"increase") {
        let inner = take_word(false, text, r, b"increase");
        let role = role_at(notes::RISE, end);
        return read_level(text, said, inner, role);
    }
    if sees_word(false, text, r, b"decrease") {
        let inner = take_word(false, text, r, b"decrease");
        let role = role_at(notes::FALL, end);
        return read_level(text, said, inner, role);
    }
    read_fact(text, said, r, set_place(end))
}

// What an effect does.
pub fn read_change(text: &[u8], said: &mut [u64], r: Reader, end: bool) -> Reader
    requires { Ready false text.now said.old r }
    ensures { Reads false text.now said.old r (change (point_of end)) said.new result }
{
    let opened = take_bracket(false, text, r, b'(');
    read_change_body(text, said, opened, end)
}
