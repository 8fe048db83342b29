// The list of starts that a person writes, as 0,6,20.
#![tactic(auto)]

ghost use Rattle.std.specs.Prelude.{◌≡◌, true, ◌≤◌, ◌<◌, length};
ghost use Rattle.listing.specs.Listed.{filled};
ghost use Rattle.start_list.specs.Starts.{is_list, starts_in, starts_read};
ghost use Rattle.start_list.specs.Words.{WordTo};

use spelled_numbers::read_whole;

// Where the word that begins at a place ends: at the next comma, or with the text.
fn word_end(text: &[u8], at: usize) -> usize
    requires { at ≤ length text.now }
    ensures { WordTo text.now at result }
{
    for k in at..text.len() {
        if text[k] == b',' {
            return k;
        }
    }
    text.len()
}

// How many starts a text lists, of one byte at least, or none where it is no list.
fn count_starts(text: &[u8]) -> Option<usize>
    requires { 0 < length text.now }
    ensures { result ≡ starts_read text.now }
{
    let mut n = 0;
    let mut at = 0;
    // No range: the next word begins where the last one ended.
    loop {
        let end = word_end(text, at);
        read_whole(text, at, end)?;
        n += 1;
        if end == text.len() {
            return Some(n);
        }
        at = end + 1;
    }
}

// Puts the starts of a text, of one byte at least, at the front of `list`, as many as it has room for.
fn put_starts(text: &[u8], list: &mut [u32])
    requires { (0 < length text.now) × (is_list text.now ≡ true) }
    ensures { list.new ≡ filled list.old (starts_in text.now) }
{
    let mut at = 0;
    for n in 0..list.len() {
        let end = word_end(text, at);
        // Every word of a list is a number.
        let Some(start) = read_whole(text, at, end) else {
            return;
        };
        list[n] = start;
        if end == text.len() {
            return;
        }
        at = end + 1;
    }
}

// Reads a list of starts into the front of `list`, and answers how many it has, whether or not there was room for them.
// A text that is no list leaves `list` as it was, and the answer is none.
pub fn read_starts(text: &[u8], list: &mut [u32]) -> Option<usize>
    ensures value { result ≡ starts_read text.now }
    ensures list_after { list.new ≡ filled list.old (starts_in text.now) }
{
    if text.len() == 0 {
        return Some(0);
    }
    let n = count_starts(text)?;
    put_starts(text, list);
    Some(n)
}
