// The table of gaps: one flat array, a row a step.
ghost use Rattle.std.specs.Prelude.{◌≡◌, max, ◌<◌};
ghost use Rattle.little_endian.specs.Bytes.{sign_bias};

use crate::layout::{GAP_BIAS, MOST_STEPS};

// The entries in a row, one for each step that the gap may lead to, and in the whole table.
pub const WIDTH: usize = MOST_STEPS;

pub const ENTRIES: usize = WIDTH * WIDTH;

// An entry for no order, of which an empty table consists.
pub const NO_ORDER: u32 = 0;

// What the entry of an order has more than the paper's gap: so much that an entry for no order, added to a start, demands nothing.
pub const ENTRY_BIAS: u32 = 16777216;

// What it has more than the gap plus `GAP_BIAS`; an entry of at most this is no order.
pub const TABLE_BIAS: u32 = ENTRY_BIAS - GAP_BIAS as u32;

// The larger of two numbers, compared with a sign, which none of them has: plain x86-64 has no vectors of maxima without one.
pub fn higher(a: u32, b: u32) -> u32
    requires { (a < sign_bias) × (b < sign_bias) }
    ensures { result ≡ max a b }
{
    if (a as i32) < (b as i32) { b } else { a }
}
