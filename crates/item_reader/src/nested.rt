// Conditions, effects and goals: one item, or (and ..) of any number, to a depth.
ghost use Rattle.std.specs.Prelude.{◌≡◌, true, false, not, ◌&&◌, ℕ, eqb};
ghost use Rattle.spelling.specs.Keywords.{and_word};
ghost use Rattle.spelling.specs.Cursor.{here, is_bracket, is_word};
ghost use Rattle.grammar.specs.Tree.{Kind, conditions, effects};
ghost use Rattle.grammar.specs.Reader.{condition_point, effect_point, item, body, items};
ghost use Rattle.token_reader.specs.Reading.{cursor_of, fault_of, Stands, Ready, Takes, Reads};
ghost use Rattle.item_reader.specs.Kinds.{kind_of};

use crate::literals::{read_change, read_fact, read_literal};
use notes::Place;
use token_reader::{Fault, Reader, refuse, sees_bracket, sees_word, take_bracket, take_word};

// What the items are: symbols of the grammar, which contracts name, so readers match on them and take no closure.
#[derive(Clone, Copy)]
pub enum Items {
    Conditions,
    Effects,
    Goals,
}

// A condition behind "at".
fn read_condition_point(text: &[u8], said: &mut [u64], r: Reader) -> Reader
    requires { Ready false text.now said.old r }
    ensures { Reads false text.now said.old r condition_point said.new result }
{
    if sees_word(false, text, r, b"start") {
        let inner = take_word(false, text, r, b"start");
        let read = read_literal(text, said, inner, Place::WantedAtStart);
        return take_bracket(false, text, read, b')');
    }
    let inner = take_word(false, text, r, b"end");
    let read = read_literal(text, said, inner, Place::WantedAtEnd);
    take_bracket(false, text, read, b')')
}

// An effect behind "at".
fn read_effect_point(text: &[u8], said: &mut [u64], r: Reader) -> Reader
    requires { Ready false text.now said.old r }
    ensures { Reads false text.now said.old r effect_point said.new result }
{
    if sees_word(false, text, r, b"start") {
        let inner = take_word(false, text, r, b"start");
        let read = read_change(text, said, inner, false);
        return take_bracket(false, text, read, b')');
    }
    let inner = take_word(false, text, r, b"end");
    let read = read_change(text, said, inner, true);
    take_bracket(false, text, read, b')')
}

// A condition behind its bracket that is no (and ..).
fn read_condition(text: &[u8], said: &mut [u64], r: Reader) -> Reader
    requires { Ready false text.now said.old r × (is_word and_word (here false text.now (cursor_of r)) ≡ false) }
    ensures { (n : ℕ) → Reads false text.now said.old r (body conditions n) said.new result }
{
    if sees_word(false, text, r, b"at") {
        let inner = take_word(false, text, r, b"at");
        return read_condition_point(text, said, inner);
    }
    let over = take_word(false, text, r, b"over");
    let all = take_word(false, text, over, b"all");
    let read = read_literal(text, said, all, Place::WantedOverAll);
    take_bracket(false, text, read, b')')
}

// An effect behind its bracket that is no (and ..).
fn read_effect(text: &[u8], said: &mut [u64], r: Reader) -> Reader
    requires { Ready false text.now said.old r × (is_word and_word (here false text.now (cursor_of r)) ≡ false) }
    ensures { (n : ℕ) → Reads false text.now said.old r (body effects n) said.new result }
{
    let inner = take_word(false, text, r, b"at");
    read_effect_point(text, said, inner)
}

// An item behind its bracket that is no (and ..).
fn read_leaf(text: &[u8], said: &mut [u64], r: Reader, kind: Items) -> Reader
    requires { Ready false text.now said.old r × (is_word and_word (here false text.now (cursor_of r)) ≡ false) }
    ensures { (n : ℕ) → Reads false text.now said.old r (body (kind_of kind) n) said.new result }
{
    match kind {
        Items::Conditions => read_condition(text, said, r),
        Items::Effects => read_effect(text, said, r),
        Items::Goals => read_fact(text, said, r, Place::Reached),
    }
}

// An (and ..) where none may stand.
fn too_deep(text: &[u8], r: Reader) -> Reader
    requires { Stands false text.now r × (is_word and_word (here false text.now (cursor_of r)) ≡ true) }
    ensures { (k : Kind) → Takes false text.now r (body k 0) result }
{
    if r.fault.is_some() {
        return r;
    }
    refuse(r, Fault::TooDeep)
}

// Whether items go on: no fault, and no bracket that closes them.
pub fn goes_on(text: &[u8], r: Reader) -> bool
    requires { Stands false text.now r }
    ensures { result ≡ (eqb (fault_of r) 0 && not (is_bracket 41 (here false text.now (cursor_of r)))) }
{
    r.fault.is_none() & !sees_bracket(false, text, r, b')')
}

// An item, in which so many (and ..) may stand inside one another.
#[cycle(items)]
pub fn read_item(text: &[u8], said: &mut [u64], r: Reader, kind: Items, left: usize) -> Reader
    requires { Ready false text.now said.old r }
    ensures { Reads false text.now said.old r (item (kind_of kind) left) said.new result }
{
    let inner = take_bracket(false, text, r, b'(');
    if sees_word(false, text, inner, b"and") {
        if left == 0 {
            return too_deep(text, inner);
        }
        let list = take_word(false, text, inner, b"and");
        return read_items(text, said, list, kind, left - 1);
    }
    read_leaf(text, said, inner, kind)
}

// Items up to the bracket that closes their (and ..), and that bracket.
#[cycle(items)]
fn read_items(text: &[u8], said: &mut [u64], r: Reader, kind: Items, left: usize) -> Reader
    requires { Ready false text.now said.old r }
    ensures { Reads false text.now said.old r (items (kind_of kind) left) said.new result }
{
    let mut next = r;
    // No range: where an item ends, and the next begins, only reading it tells.
    while goes_on(text, next) {
        next = read_item(text, said, next, kind, left);
    }
    take_bracket(false, text, next, b')')
}
