// Words, brackets and lines of a text, one after the other, at a cursor. In a plan a colon is like a bracket and a line end stands for
// itself.
#![tactic(auto)]

pub mod here;

ghost use Rattle.std.specs.Prelude.{◌≡◌, false, ◌+◌, ◌≤◌, ◌<◌, length, get_or};
ghost use Rattle.spelling.specs.Tokens.{text_most, is_blank, is_mark, in_word, line_after};
ghost use Rattle.spelling.specs.Scan.{Skipped, RunsTo, Moved};
ghost use Rattle.spelling.specs.Cursor.{Standing, First, Next};

// A space, a tab and, outside a plan, a line end.
fn is_blank(plan: bool, b: u8) -> bool
    ensures { result ≡ is_blank plan b }
{
    (b == b' ') | (b == 9) | (!plan & (b == 10))
}

// A bracket and, in a plan, a colon or a line end.
fn is_mark(plan: bool, b: u8) -> bool
    ensures { result ≡ is_mark plan b }
{
    (b == b'(') | (b == b')') | (b == b'[') | (b == b']') | (plan & ((b == b':') | (b == 10)))
}

// A byte of a word.
fn in_word(plan: bool, b: u8) -> bool
    ensures { result ≡ in_word plan b }
{
    !(is_blank(plan, b) | is_mark(plan, b))
}

// The line after a byte.
fn line_after(b: u8, line: usize) -> usize
    requires { line ≤ text_most }
    ensures { (result ≡ line_after b line) × (result ≤ line + 1) }
{
    let ends_line = b == 10;
    if ends_line { line + 1 } else { line }
}

// A place of a text, and its line.
#[derive(Clone, Copy)]
struct Spot {
    at: usize,
    line: usize,
}

// Past the blanks from a place on.
fn skip(plan: bool, text: &[u8], from: usize, line: usize) -> Spot
    requires { (length text.now ≤ text_most) × (from ≤ length text.now) × (line ≤ from) }
    ensures { Skipped plan text.now from line result }
{
    let mut on = line;
    for at in from..text.len() {
        let b = text[at];
        if !is_blank(plan, b) {
            return Spot { at: at, line: on };
        }
        on = line_after(b, on);
    }
    Spot {
        at: text.len(),
        line: on,
    }
}

// Where the run of a word's bytes from a place on ends.
fn run_end(plan: bool, text: &[u8], from: usize) -> usize
    requires { from ≤ length text.now }
    ensures { RunsTo plan text.now from result }
{
    for end in from..text.len() {
        if !in_word(plan, text[end]) {
            return end;
        }
    }
    text.len()
}

// A token of a text: where it begins and ends, and its line. The text's end stands past the last byte.
#[derive(Clone, Copy)]
pub struct Cursor {
    pub at: usize,
    pub end: usize,
    pub line: usize,
}

// The token that begins at a place which holds no blank.
fn token_at(plan: bool, text: &[u8], at: usize, line: usize) -> Cursor
    requires at_in_bounds { (at ≤ length text.now) × (line ≤ at) }
    requires not_blank { at < length text.now → is_blank plan (get_or text.now at 0) ≡ false }
    ensures { (result.at ≡ at) × (result.line ≡ line) × Standing plan text.now result }
{
    if at == text.len() {
        return Cursor {
            at: at,
            end: at,
            line: line,
        };
    }
    if is_mark(plan, text[at]) {
        return Cursor {
            at: at,
            end: at + 1,
            line: line,
        };
    }
    Cursor {
        at: at,
        end: run_end(plan, text, at),
        line: line,
    }
}

// The next token from a place on.
fn token_from(plan: bool, text: &[u8], from: usize, line: usize) -> Cursor
    requires { (length text.now ≤ text_most) × (from ≤ length text.now) × (line ≤ from) }
    ensures { Moved plan text.now from line result }
{
    let spot = skip(plan, text, from, line);
    let at = spot.at;
    token_at(plan, text, at, spot.line)
}

// The first token of a text.
pub fn first(plan: bool, text: &[u8]) -> Cursor
    requires { length text.now ≤ text_most }
    ensures { First plan text.now result }
{
    token_from(plan, text, 0, 0)
}

// The token behind one that is not the text's end.
pub fn next(plan: bool, text: &[u8], c: Cursor) -> Cursor
    requires { (length text.now ≤ text_most) × Standing plan text.now c × (c.at < length text.now) }
    ensures { Next plan text.now c result }
{
    let at = c.at;
    let line = line_after(text[at], c.line);
    token_from(plan, text, c.end, line)
}
