// The timed facts of a fact next to a place among them, by their values.
ghost use Rattle.std.specs.Prelude.{◌≡◌, ◌+◌, ◌≤◌, ◌<◌, length, Some, None};
ghost use Rattle.timeline.specs.Words.{tick_at};
ghost use Rattle.moves.specs.Others.{Passed, LastOther, NextOther};

use timeline::walk::Cursor;
use timeline::word::{tick_of, value_of};

// The tick of the last timed fact before a cursor that has another value, if there is one.
pub fn last_other(order: &[u64], from: usize, cursor: Cursor, value: u16) -> Option<usize>
    requires { Passed order.now from cursor }
    ensures { LastOther order.now from cursor.place value result }
{
    if cursor.place <= from {
        return None;
    }
    let last = order[cursor.place - 1];
    if value_of(last) != value {
        return Some(tick_of(last));
    }
    if cursor.run <= from {
        return None;
    }
    Some(tick_of(order[cursor.run - 1]))
}

// The first place, from one on, of a timed fact of another value after tick t, or `until` where there is none: a walk goes on from there.
pub fn next_other(order: &[u64], from: usize, until: usize, value: u16, t: usize) -> usize
    requires { (from ≤ until) × (until ≤ length order.now) }
    ensures { NextOther order.now from until value t result }
{
    for place in from..until {
        let word = order[place];
        if (value_of(word) != value) & (t < tick_of(word)) {
            return place;
        }
    }
    until
}

// The tick of the timed fact at a place, if one is left.
pub fn next_tick(order: &[u64], place: usize, until: usize) -> Option<usize>
    requires { until ≤ length order.now }
    ensures { (until ≤ place → result ≡ None) × (place < until → result ≡ Some (tick_at order.now place)) }
{
    if place < until {
        Some(tick_of(order[place]))
    } else {
        None
    }
}
