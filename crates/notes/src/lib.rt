// What a text says, noted in a list: a number for each item, with its role, its line, and where its name stands or which number it is.
#![tactic(auto)]

ghost use Rattle.std.specs.Prelude.{◌≡◌, ◌+◌, ◌≤◌, ◌<◌};
ghost use Rattle.notes.specs.Notes.{value_in, line_in, role_in, name_at, name_end, roles, first_role, fact_role, numbered, named};

// The role of a number, and those of names: a rise or a fall at the end has one more. They are numbers, and no enum, since a note is one
// number with its role packed in, and roles are counted on from a first one.
pub const NUMBER: usize = 0;

pub const ACTION: usize = 1;

pub const PLANNED: usize = 2;

pub const STOCK: usize = 3;

pub const RISE: usize = 4;

pub const FALL: usize = 6;

// Facts that are wanted at the start, over all, and at the end; set at the start, and at the end; reached in the end; given at first.
// Each has its role as 0, and one more as 1.
pub const WANTED: usize = 8;

pub const OVER_ALL: usize = 10;

pub const WANTED_AT_END: usize = 12;

pub const SET: usize = 14;

pub const SET_AT_END: usize = 16;

pub const REACHED: usize = 18;

pub const GIVEN: usize = 20;

// Room for a note of each byte of the longest text, and a 0 behind the last.
pub const NOTES_MOST: usize = 65536;

// Where a fact stands.
#[derive(Clone, Copy)]
pub enum Place {
    WantedAtStart,
    WantedOverAll,
    WantedAtEnd,
    SetAtStart,
    SetAtEnd,
    Reached,
    Given,
}

// The role of a fact that stands there as 0.
fn first_role(place: Place) -> usize
    ensures { (result ≡ first_role place) × (result < 21) }
{
    match place {
        Place::WantedAtStart => WANTED,
        Place::WantedOverAll => OVER_ALL,
        Place::WantedAtEnd => WANTED_AT_END,
        Place::SetAtStart => SET,
        Place::SetAtEnd => SET_AT_END,
        Place::Reached => REACHED,
        Place::Given => GIVEN,
    }
}

// The role of a fact that stands there as a value.
pub fn fact_role(place: Place, value: bool) -> usize
    ensures { (result ≡ fact_role place value) × (result < roles) }
{
    let first = first_role(place);
    if value { first + 1 } else { first }
}

// A number on a line.
pub fn note_number(n: u32, line: usize) -> u64
    requires { line ≤ 65535 }
    ensures { result ≡ numbered n line }
{
    n as u64 + 4294967296 * line as u64
}

// A name from a place of its text up to another, on a line, in a role.
pub fn note_name(at: usize, end: usize, line: usize, role: usize) -> u64
    requires { (at ≤ 65535) × (at ≤ end) × (end ≤ at + 31) × (line ≤ 65535) × (role < roles) }
    ensures { result ≡ named at end line role }
{
    let value = at as u64 + 65536 * (end - at) as u64;
    value + 4294967296 * line as u64 + 281474976710656 * role as u64
}

// What a note holds: its role, its line, its number, and where its name begins and ends.
pub fn role(w: u64) -> usize
    ensures { result ≡ role_in w }
{
    (w / 281474976710656) as usize
}

pub fn line(w: u64) -> usize
    ensures { (result ≡ line_in w) × (result < 65536) }
{
    (w / 4294967296 % 65536) as usize
}

pub fn value(w: u64) -> usize
    ensures { (result ≡ value_in w) × (result < 4294967296) }
{
    (w % 4294967296) as usize
}

pub fn name_at(w: u64) -> usize
    ensures { (result ≡ name_at w) × (result < 65536) }
{
    value(w) % 65536
}

pub fn name_end(w: u64) -> usize
    ensures { (result ≡ name_end w) × (name_at w ≤ result) }
{
    value(w) % 65536 + value(w) / 65536
}
