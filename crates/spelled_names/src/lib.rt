// Names of actions, facts and levels, and the words of the grammar, anywhere in a text and at a cursor.
#![tactic(auto)]

ghost use Rattle.std.specs.Prelude.{◌≡◌, ◌-◌, ◌≤◌, ◌<◌, length, get_or};
ghost use Rattle.std.proofs.Math.Seq.{slice};
ghost use Rattle.laws.specs.Search.{all};
ghost use Rattle.spelling.specs.Keywords.{same};
ghost use Rattle.spelling.specs.Names.{is_name_byte, is_reserved, is_name};
ghost use Rattle.spelling.specs.Cursor.{here, Standing, is_such, is_word};

use spelling::Cursor;
use spelling::here::at_some_word;

// Whether the bytes from a place up to another are this word. They are compared one by one: names are short and differ early, and the
// library's comparison of slices is a call.
pub fn word_is(text: &[u8], at: usize, end: usize, word: &[u8]) -> bool
    requires { (at ≤ end) × (end ≤ length text.now) }
    ensures { result ≡ same (slice at end text.now) word.now }
{
    if end - at != word.len() {
        return false;
    }
    for k in 0..word.len() {
        if text[at + k] != word[k] {
            return false;
        }
    }
    true
}

fn is_name_byte(b: u8) -> bool
    ensures { result ≡ is_name_byte b }
{
    b.is_ascii_alphabetic() | b.is_ascii_digit() | (b == b'-') | (b == b'_')
}

// Whether all bytes of a word may stand in a name.
fn name_bytes(text: &[u8], at: usize, end: usize) -> bool
    requires { (at ≤ end) × (end ≤ length text.now) }
    ensures { result ≡ all (end - at) (λ k. is_name_byte (get_or (slice at end text.now) k 0)) }
{
    text[at..end].iter().all(|b| is_name_byte(*b))
}

// Whether a word is one of the six that are no names.
fn is_reserved(text: &[u8], at: usize, end: usize) -> bool
    requires { (at ≤ end) × (end ≤ length text.now) }
    ensures { result ≡ is_reserved (slice at end text.now) }
{
    word_is(text, at, end, b"at")
        | word_is(text, at, end, b"over")
        | word_is(text, at, end, b"and")
        | word_is(text, at, end, b"not")
        | word_is(text, at, end, b"increase")
        | word_is(text, at, end, b"decrease")
}

// Bytes of the longest name.
const NAME_MOST: usize = 31;

// Whether a word is a name.
pub fn is_name(text: &[u8], at: usize, end: usize) -> bool
    requires { (at < end) × (end ≤ length text.now) }
    ensures { result ≡ is_name (slice at end text.now) }
{
    (end - at <= NAME_MOST)
        & text[at].is_ascii_alphabetic()
        & name_bytes(text, at, end)
        & !is_reserved(text, at, end)
}

// A word of the grammar.
pub fn at_word(plan: bool, text: &[u8], c: Cursor, word: &[u8]) -> bool
    requires { Standing plan text.now c }
    ensures { result ≡ is_word word.now (here plan text.now c) }
{
    at_some_word(plan, text, c) & word_is(text, c.at, c.end, word)
}

// A name.
pub fn at_name(plan: bool, text: &[u8], c: Cursor) -> bool
    requires { Standing plan text.now c }
    ensures { result ≡ is_such is_name (here plan text.now c) }
{
    if !at_some_word(plan, text, c) {
        return false;
    }
    is_name(text, c.at, c.end)
}
