// The first text: its actions, what init gives, the goal and the end.
ghost use Rattle.std.specs.Prelude.{◌≡◌, false, ◌&&◌, List, [], ◌∷◌, ℕ, eqb};
ghost use Rattle.spelling.specs.Keywords.{durative_word};
ghost use Rattle.spelling.specs.Cursor.{here, is_word};
ghost use Rattle.grammar.specs.Reader.{Symbol, text, inits, init_body, finish};
ghost use Rattle.token_reader.specs.Reading.{cursor_of, fault_of, Stands, Ready, Reads, Leads, Ends};
ghost use Rattle.text_reader.specs.Rows.{action_row, goal_row};

use item_reader::literals::read_level;
use item_reader::nested::{Items, goes_on, read_item};
use notes::{Place, fact_role};
use token_reader::{
    Fault, Reader, refuse, sees_end, sees_word, take_bracket, take_name, take_time, take_word,
};

// How many (and ..) may stand inside one another.
const DEPTH_MOST: usize = 16;

// An action behind its first bracket.
fn read_action(text: &[u8], said: &mut [u64], r: Reader) -> Reader
    requires { Ready false text.now said.old r }
    ensures { Leads false text.now said.old r action_row said.new result }
{
    let begun = take_word(false, text, r, b":durative-action");
    let named = take_name(false, text, said, begun, notes::ACTION);
    let lasts = take_word(false, text, named, b":duration");
    let opened = take_bracket(false, text, lasts, b'(');
    let equal = take_word(false, text, opened, b"=");
    let asked = take_word(false, text, equal, b"?duration");
    let timed = take_time(false, text, said, asked);
    let closed = take_bracket(false, text, timed, b')');
    let wants = take_word(false, text, closed, b":condition");
    let wanted = read_item(text, said, wants, Items::Conditions, DEPTH_MOST);
    let does = take_word(false, text, wanted, b":effect");
    let done = read_item(text, said, does, Items::Effects, DEPTH_MOST);
    take_bracket(false, text, done, b')')
}

// What init gives, one item behind its bracket.
fn read_init_item(text: &[u8], said: &mut [u64], r: Reader) -> Reader
    requires { Ready false text.now said.old r }
    ensures { Reads false text.now said.old r init_body said.new result }
{
    if sees_word(false, text, r, b"=") {
        let inner = take_word(false, text, r, b"=");
        return read_level(text, said, inner, notes::STOCK);
    }
    let role = fact_role(Place::Given, true);
    let named = take_name(false, text, said, r, role);
    take_bracket(false, text, named, b')')
}

// What init gives, up to its bracket, and that bracket.
fn read_inits(text: &[u8], said: &mut [u64], r: Reader) -> Reader
    requires { Ready false text.now said.old r }
    ensures { Reads false text.now said.old r inits said.new result }
{
    let mut next = r;
    // No range: where an item ends, and the next begins, only reading it tells.
    while goes_on(text, next) {
        let opened = take_bracket(false, text, next, b'(');
        next = read_init_item(text, said, opened);
    }
    take_bracket(false, text, next, b')')
}

// The text's end.
fn take_end(text: &[u8], r: Reader) -> Reader
    requires { Stands false text.now r }
    ensures { (list : List ℕ) → Ready false text.now list r → Ends false text.now list r (finish ∷ []) list result }
{
    if r.fault.is_some() {
        return r;
    }
    if sees_end(false, text, r) {
        return r;
    }
    refuse(r, Fault::OutsideGrammar)
}

// The goal, and nothing behind it.
fn read_goal(text: &[u8], said: &mut [u64], r: Reader) -> Reader
    requires { Ready false text.now said.old r }
    ensures { Ends false text.now said.old r goal_row said.new result }
{
    let opened = take_bracket(false, text, r, b'(');
    let begun = take_word(false, text, opened, b":goal");
    let read = read_item(text, said, begun, Items::Goals, DEPTH_MOST);
    let closed = take_bracket(false, text, read, b')');
    take_end(text, closed)
}

// Whether an action follows: no fault, and its first word.
fn at_action(text: &[u8], r: Reader) -> bool
    requires { Stands false text.now r }
    ensures { result ≡ (eqb (fault_of r) 0 && is_word durative_word (here false text.now (cursor_of r))) }
{
    r.fault.is_none() & sees_word(false, text, r, b":durative-action")
}

// The whole text.
pub fn read_text(text: &[u8], said: &mut [u64], r: Reader) -> Reader
    requires { Ready false text.now said.old r }
    ensures { Ends false text.now said.old r (Symbol.text ∷ []) said.new result }
{
    let mut next = take_bracket(false, text, r, b'(');
    // No range: where an action ends, and the next begins, only reading it tells.
    while at_action(text, next) {
        let done = read_action(text, said, next);
        next = take_bracket(false, text, done, b'(');
    }
    let begun = take_word(false, text, next, b":init");
    let given = read_inits(text, said, begun);
    read_goal(text, said, given)
}
