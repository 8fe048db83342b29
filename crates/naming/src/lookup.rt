// An index of the first appearances of names: the last of each key, then before each item the last of its key.
ghost use Rattle.std.specs.Prelude.{◌≡◌, ◌≤◌, ◌<◌, length};
ghost use Rattle.notes.specs.Notes.{items_in};
ghost use Rattle.naming.specs.Index.{key_count, mixed, Indexed};
ghost use Rattle.naming.specs.Named.{Readable};
ghost use Rattle.naming.specs.Passed.{Looked};

use notes::{name_at, name_end};
use spelled_names::word_is;

// The keys of the index.
pub const KEYS: usize = 4096;

// The key of a word.
pub fn mix(word: &[u8]) -> usize
    ensures { (result ≡ mixed 0 word.now) × (result < key_count) }
{
    let mut h: usize = 0;
    for b in word {
        h = (h * 31 + usize::from(*b)) % KEYS;
    }
    h
}

// The first appearance of a word among the first m items.
pub fn find(text: &[u8], said: &[u64], index: &[u16], m: usize, word: &[u8]) -> Option<usize>
    requires { Readable text.now said.now × Indexed (items_in text.now said.now) m index.now × (m ≤ length said.now) }
    ensures { Looked (items_in text.now said.now) m word.now result }
{
    let key = mix(word);
    let mut j = usize::from(index[key]);
    // Each link leads to some item further back, so there is no range to go over.
    while j < m {
        let note = said[j];
        if word_is(text, name_at(note), name_end(note), word) {
            return Some(j);
        }
        j = usize::from(index[KEYS + j]);
    }
    None
}
