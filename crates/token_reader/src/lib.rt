// The tokens of a supplier's text, read one after the other: each function reads one symbol of the grammar, or marks the first fault.
// A reader with a fault passes through every function unchanged.
#![tactic(auto)]

ghost use Rattle.std.specs.Prelude.{◌≡◌, ◌<◌, length};
ghost use Rattle.spelling.specs.Cursor.{here, is_bracket, is_word, is_stop};
ghost use Rattle.grammar.specs.Reader.{bracket, keyword, name, time, amount};
ghost use Rattle.notes.specs.Notes.{roles, role_of, Sound};
ghost use Rattle.token_reader.specs.Reading.{cursor_of, reader_at, fault_of, faulty, Stands, Ready, Advanced, Takes, Reads, Notes};

use spelled_names::{at_name, at_word};
use spelled_numbers::{time_at, whole_at};
use spelling::Cursor;
use spelling::here::{at_bracket, at_end};

// Why a text is refused: it is not of the grammar, or an (and ..) stands too deep.
#[derive(Clone, Copy, Debug, PartialEq, Eq)]
pub enum Fault {
    OutsideGrammar,
    TooDeep,
}

// The token [at, end) on a line at which the reader stands, the items noted so far, and the fault that was met.
#[derive(Clone, Copy)]
pub struct Reader {
    pub at: usize,
    pub end: usize,
    pub line: usize,
    pub count: usize,
    pub fault: Option<Fault>,
}

// A reader at a cursor.
pub fn reader_at(c: Cursor, count: usize, fault: Option<Fault>) -> Reader
    ensures { result ≡ reader_at c count fault }
{
    Reader {
        at: c.at,
        end: c.end,
        line: c.line,
        count: count,
        fault: fault,
    }
}

fn cursor(r: Reader) -> Cursor
    ensures { result ≡ cursor_of r }
{
    Cursor {
        at: r.at,
        end: r.end,
        line: r.line,
    }
}

// One token further.
fn advance(plan: bool, text: &[u8], r: Reader) -> Reader
    requires { Stands plan text.now r × (r.at < length text.now) }
    ensures { Advanced plan text.now r result }
{
    let c = spelling::next(plan, text, cursor(r));
    reader_at(c, r.count, r.fault)
}

// A fault at this token.
pub fn refuse(r: Reader, fault: Fault) -> Reader
    ensures { result ≡ faulty r fault }
{
    Reader {
        at: r.at,
        end: r.end,
        line: r.line,
        count: r.count,
        fault: Some(fault),
    }
}

// Whether this bracket stands here.
pub fn sees_bracket(plan: bool, text: &[u8], r: Reader, b: u8) -> bool
    requires { Stands plan text.now r }
    ensures { result ≡ is_bracket b (here plan text.now (cursor_of r)) }
{
    at_bracket(plan, text, cursor(r), b)
}

// Whether this word stands here.
pub fn sees_word(plan: bool, text: &[u8], r: Reader, word: &[u8]) -> bool
    requires { Stands plan text.now r }
    ensures { result ≡ is_word word.now (here plan text.now (cursor_of r)) }
{
    at_word(plan, text, cursor(r), word)
}

// Whether the text ends here.
pub fn sees_end(plan: bool, text: &[u8], r: Reader) -> bool
    requires { Stands plan text.now r }
    ensures { result ≡ is_stop (here plan text.now (cursor_of r)) }
{
    at_end(plan, text, cursor(r))
}

// Reads a bracket or what is like one.
pub fn take_bracket(plan: bool, text: &[u8], r: Reader, b: u8) -> Reader
    requires { Stands plan text.now r }
    ensures { Takes plan text.now r (bracket b) result }
{
    if r.fault.is_some() {
        return r;
    }
    if sees_bracket(plan, text, r, b) {
        return advance(plan, text, r);
    }
    refuse(r, Fault::OutsideGrammar)
}

// Reads a word of the grammar.
pub fn take_word(plan: bool, text: &[u8], r: Reader, word: &[u8]) -> Reader
    requires { Stands plan text.now r }
    ensures { Takes plan text.now r (keyword word.now) result }
{
    if r.fault.is_some() {
        return r;
    }
    if sees_word(plan, text, r, word) {
        return advance(plan, text, r);
    }
    refuse(r, Fault::OutsideGrammar)
}

// Notes what the token says, and goes one token further.
fn note(plan: bool, text: &[u8], said: &mut [u64], r: Reader, w: u64) -> Reader
    requires { Ready plan text.now said.old r × (r.at < length text.now) × (fault_of r ≡ 0) × Sound text.now w }
    ensures { Notes plan text.now said.old r w said.new result }
{
    let a = advance(plan, text, r);
    let count = r.count;
    said[count] = w;
    Reader {
        at: a.at,
        end: a.end,
        line: a.line,
        count: count + 1,
        fault: None,
    }
}

// Reads a name in a role.
pub fn take_name(plan: bool, text: &[u8], said: &mut [u64], r: Reader, role: usize) -> Reader
    requires { Ready plan text.now said.old r × (role ≡ 0 → ⊥) × (role < roles) }
    ensures { Reads plan text.now said.old r (name (role_of role)) said.new result }
{
    if r.fault.is_some() {
        return r;
    }
    if !at_name(plan, text, cursor(r)) {
        return refuse(r, Fault::OutsideGrammar);
    }
    let w = notes::note_name(r.at, r.end, r.line, role);
    note(plan, text, said, r, w)
}

// Reads a time.
pub fn take_time(plan: bool, text: &[u8], said: &mut [u64], r: Reader) -> Reader
    requires { Ready plan text.now said.old r }
    ensures { Reads plan text.now said.old r time said.new result }
{
    if r.fault.is_some() {
        return r;
    }
    let Some(n) = time_at(plan, text, cursor(r)) else {
        return refuse(r, Fault::OutsideGrammar);
    };
    let w = notes::note_number(n, r.line);
    note(plan, text, said, r, w)
}

// Reads an amount.
pub fn take_amount(plan: bool, text: &[u8], said: &mut [u64], r: Reader) -> Reader
    requires { Ready plan text.now said.old r }
    ensures { Reads plan text.now said.old r amount said.new result }
{
    if r.fault.is_some() {
        return r;
    }
    let Some(n) = whole_at(plan, text, cursor(r)) else {
        return refuse(r, Fault::OutsideGrammar);
    };
    let w = notes::note_number(n, r.line);
    note(plan, text, said, r, w)
}
