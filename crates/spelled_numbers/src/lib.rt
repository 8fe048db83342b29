// Numbers: W, a whole amount, and T, a time in ticks, anywhere in a text and at a cursor.
#![tactic(auto)]

ghost use Rattle.std.specs.Prelude.{◌≡◌, ◌+◌, ◌-◌, ◌*◌, ◌^◌, ◌≤◌, ◌<◌, length};
ghost use Rattle.std.proofs.Math.Seq.{slice};
ghost use Rattle.spelling.specs.Numbers.{point_at, digits_of, Below, whole_of, time_of};
ghost use Rattle.spelling.specs.Cursor.{here, Standing, whole_at, time_at};

use spelling::Cursor;
use spelling::here::at_some_word;

// A number with one more digit.
fn with_digit(n: u32, b: u8) -> u32
    requires { (n < 100000000) × (48 ≤ b) × (b ≤ 57) }
    ensures { result ≡ 10 * n + (b - 48) }
{
    10 * n + u32::from(b - b'0')
}

// From one to so many digits.
fn digits(word: &[u8], most: usize) -> Option<u32>
    requires { most ≤ 9 }
    ensures { (result ≡ digits_of most word.now) × Below most result }
{
    if (word.len() == 0) | (word.len() > most) {
        return None;
    }
    let mut n: u32 = 0;
    for b in word {
        if !b.is_ascii_digit() {
            return None;
        }
        n = with_digit(n, *b);
    }
    Some(n)
}

// Digits of the longest W.
const WHOLE_MOST: usize = 9;

// A W.
pub fn read_whole(text: &[u8], at: usize, end: usize) -> Option<u32>
    requires { (at ≤ end) × (end ≤ length text.now) }
    ensures { result ≡ whole_of (slice at end text.now) }
{
    digits(&text[at..end], WHOLE_MOST)
}

// Where the point of a word stands, or its end.
fn point_at(word: &[u8]) -> usize
    ensures { (result ≡ point_at word.now) × (result ≤ length word.now) }
{
    match word.iter().position(|b| *b == b'.') {
        Some(k) => k,
        None => word.len(),
    }
}

// So many digits behind the point, in thousandths.
fn thousandths(n: u32, count: usize) -> u32
    requires { (n < 1000) × (1 ≤ count) × (count ≤ 3) }
    ensures { (result ≡ n * 10 ^ (3 - count)) × (result ≤ 100 * n) }
{
    if count == 1 {
        return 100 * n;
    }
    if count == 2 {
        return 10 * n;
    }
    n
}

// Most digits before the point of a T, and behind it.
const SECOND_MOST: usize = 6;

const PART_MOST: usize = 3;

// The ticks that a word spells as a T.
fn ticks(word: &[u8]) -> Option<u32>
    ensures { result ≡ time_of word.now }
{
    let point = point_at(word);
    let whole = digits(&word[..point], SECOND_MOST)?;
    if point == word.len() {
        return Some(1000 * whole);
    }
    let decimals = &word[point + 1..];
    let part = digits(decimals, PART_MOST)?;
    let rest = thousandths(part, decimals.len());
    Some(1000 * whole + rest)
}

// A T, in ticks.
pub fn read_time(text: &[u8], at: usize, end: usize) -> Option<u32>
    requires { (at ≤ end) × (end ≤ length text.now) }
    ensures { result ≡ time_of (slice at end text.now) }
{
    ticks(&text[at..end])
}

// A W, read.
pub fn whole_at(plan: bool, text: &[u8], c: Cursor) -> Option<u32>
    requires { Standing plan text.now c }
    ensures { result ≡ whole_at (here plan text.now c) }
{
    if !at_some_word(plan, text, c) {
        return None;
    }
    read_whole(text, c.at, c.end)
}

// A T, read in ticks.
pub fn time_at(plan: bool, text: &[u8], c: Cursor) -> Option<u32>
    requires { Standing plan text.now c }
    ensures { result ≡ time_at (here plan text.now c) }
{
    if !at_some_word(plan, text, c) {
        return None;
    }
    read_time(text, c.at, c.end)
}
