// The plan, line by line.
ghost use Rattle.std.specs.Prelude.{◌≡◌, true, false, not, ◌&&◌, List, [], ◌∷◌, ℕ, ◌<◌, eqb};
ghost use Rattle.spelling.specs.Cursor.{here, is_stop};
ghost use Rattle.grammar.specs.Reader.{lines, line_end};
ghost use Rattle.token_reader.specs.Reading.{cursor_of, fault_of, Stands, Ready, Turns, Ends};

use token_reader::{Reader, sees_bracket, sees_end, take_bracket, take_name, take_time};

// The byte that ends a line.
const LINE_END: u8 = 10;

// A line's end, or the text's.
fn end_line(text: &[u8], r: Reader) -> Reader
    requires { Stands true text.now r }
    ensures kept_fault { fault_of result ≡ 0 → fault_of r ≡ 0 }
    ensures turns { (list : List ℕ) → Ready true text.now list r → Turns true text.now list r line_end list result lines }
{
    if r.fault.is_some() {
        return r;
    }
    if sees_end(true, text, r) {
        return r;
    }
    take_bracket(true, text, r, LINE_END)
}

// One line, or an empty one.
fn read_line(text: &[u8], said: &mut [u64], r: Reader) -> Reader
    requires { Ready true text.now said.old r × (fault_of r ≡ 0) × (is_stop (here true text.now (cursor_of r)) ≡ false) }
    ensures { Turns true text.now said.old r lines said.new result lines × (fault_of result ≡ 0 → r.at < result.at) }
{
    if sees_bracket(true, text, r, LINE_END) {
        return take_bracket(true, text, r, LINE_END);
    }
    let starts = take_time(true, text, said, r);
    let parted = take_bracket(true, text, starts, b':');
    let opened = take_bracket(true, text, parted, b'(');
    let named = take_name(true, text, said, opened, notes::PLANNED);
    let closed = take_bracket(true, text, named, b')');
    let lasts = take_bracket(true, text, closed, b'[');
    let timed = take_time(true, text, said, lasts);
    let last = take_bracket(true, text, timed, b']');
    end_line(text, last)
}

// Whether a line follows: no fault, and not the text's end.
fn at_line(text: &[u8], r: Reader) -> bool
    requires { Stands true text.now r }
    ensures { result ≡ (eqb (fault_of r) 0 && not (is_stop (here true text.now (cursor_of r)))) }
{
    r.fault.is_none() & !sees_end(true, text, r)
}

// All lines.
pub fn read_lines(text: &[u8], said: &mut [u64], r: Reader) -> Reader
    requires { Ready true text.now said.old r }
    ensures { Ends true text.now said.old r (lines ∷ []) said.new result }
{
    let mut next = r;
    // No range: where a line ends, and the next begins, only reading it tells.
    while at_line(text, next) {
        next = read_line(text, said, next);
    }
    next
}
