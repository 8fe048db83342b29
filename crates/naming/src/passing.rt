// Items one by one: whether each may stand behind those before it, and the number of its name.
ghost use Rattle.std.specs.Prelude.{◌≡◌, ◌+◌, ◌≤◌, ◌<◌, length, get_or, set};
ghost use Rattle.notes.specs.Notes.{notes_most, role_in, roles, role_of, items_in};
ghost use Rattle.supplied.specs.Names.{kind_of, kind_number};
ghost use Rattle.supplied.specs.Names as supplied;
ghost use Rattle.naming.specs.Index.{key_count, unlinked, index_size};
ghost use Rattle.naming.specs.Named.{Readable};
ghost use Rattle.naming.specs.Kinds.{meant};
ghost use Rattle.naming.specs.Passed.{Repeated, Passed, Stepped};

use crate::lookup::{KEYS, find, mix};
use notes::{ACTION, GIVEN, NOTES_MOST, NUMBER, STOCK, WANTED, name_at, name_end, role};

// The kinds of names, and how many there are.
#[derive(Clone, Copy, Debug, PartialEq, Eq)]
pub enum Kind {
    Actions,
    Facts,
    Levels,
    Lines,
}

pub const KINDS: usize = 4;

impl Kind {
    // Where a list of the kinds has it.
    pub fn index(self) -> usize
        ensures { (result ≡ kind_number (meant self)) × (result < 4) }
    {
        self as usize
    }
}

// A mark an item: whether its name has been given, kept where the name first appears.
pub const MARKS: usize = NOTES_MOST;

// The kind of names in a role.
fn kind_of(role: usize) -> Kind
    requires { role < roles }
    ensures { meant result ≡ kind_of (role_of role) }
{
    if role >= WANTED {
        Kind::Facts
    } else if role >= STOCK {
        Kind::Levels
    } else if role == ACTION {
        Kind::Actions
    } else {
        Kind::Lines
    }
}

// Whether a role gives its name: that of an action, and those of init.
fn gives(role: usize) -> bool
    requires { role < roles }
    ensures { result ≡ supplied.gives (role_of role) }
{
    (role == ACTION) | (role == STOCK) | (role >= GIVEN)
}

// A name that is said again, behind its first appearance: both may stand if they are of one kind and not given twice.
fn repeat(
    note: u64,
    earlier: u64,
    k: usize,
    first: usize,
    numbers: &mut [u16],
    marks: &mut [bool],
) -> bool
    requires { (role_in note < roles) × (role_in earlier < roles) × (first < k) × (k < length numbers.old) × (k < length marks.old) }
    ensures { Repeated note earlier k first numbers.old marks.old numbers.new marks.new result }
{
    let given = gives(role(note));
    if kind_of(role(earlier)) != kind_of(role(note)) {
        return false;
    }
    if given & marks[first] {
        return false;
    }
    marks[first] |= given;
    numbers[k] = numbers[first];
    true
}

// A new name: it is linked by its key, and has the next number of its kind.
fn enter(
    key: usize,
    role: usize,
    k: usize,
    index: &mut [u16],
    numbers: &mut [u16],
    marks: &mut [bool],
    counts: &mut [u16],
)
    requires { (key < key_count) × (role < roles) × (k < unlinked) × (length index.old ≡ index_size) × (length numbers.old ≡ notes_most)
        × (length marks.old ≡ notes_most) × (length counts.old ≡ 4) × (get_or counts.old (kind_number (kind_of (role_of role))) 0 ≤ k) }
    ensures index_after { index.new ≡ set (set index.old (key_count + k) (get_or index.old key 0)) key k }
    ensures numbers_after { numbers.new ≡ set numbers.old k (get_or counts.old (kind_number (kind_of (role_of role))) 0) }
    ensures marks_after { marks.new ≡ set marks.old k (supplied.gives (role_of role)) }
    ensures counts_after { counts.new ≡ set counts.old (kind_number (kind_of (role_of role)))
        (get_or counts.old (kind_number (kind_of (role_of role))) 0 + 1) }
{
    let kind = kind_of(role).index();
    index[KEYS + k] = index[key];
    index[key] = k as u16;
    numbers[k] = counts[kind];
    marks[k] = gives(role);
    counts[kind] += 1;
}

// Whether item k may stand behind those before it; then it is passed.
pub fn pass_item(
    text: &[u8],
    said: &[u64],
    k: usize,
    index: &mut [u16],
    numbers: &mut [u16],
    marks: &mut [bool],
    counts: &mut [u16],
) -> bool
    requires { Readable text.now said.now × (k < length said.now)
        × Passed (items_in text.now said.now) k index.old numbers.old marks.old counts.old }
    ensures { Stepped (items_in text.now said.now) k index.new numbers.new marks.new
        counts.new result }
{
    let note = said[k];
    if role(note) == NUMBER {
        return true;
    }
    let word = &text[name_at(note)..name_end(note)];
    match find(text, said, index, k, word) {
        Some(first) => repeat(note, said[first], k, first, numbers, marks),
        None => {
            enter(mix(word), role(note), k, index, numbers, marks, counts);
            true
        }
    }
}
