// The lines of the text, each put into a buffer from a position on.
ghost use Rattle.std.specs.Prelude.{◌+◌, ◌≤◌, ◌<◌};
ghost use Rattle.order_file.specs.Layout.{contents_of};
ghost use Rattle.order_file.specs.Contents.{gap_span};
ghost use Rattle.sheet.specs.Text.{latest_text, gap_text, head_line, window_line, order_line, head_most, window_most, order_most};
ghost use Rattle.text.specs.Put.{Put};
ghost use Rattle.little_endian.specs.Bytes.{u16_values, u32_values};

use order_file::layout;
use text::{put_decimal, put_field, put_word};

// Puts a latest start.
pub fn put_latest(latest: usize, at: usize, out: &mut [u8]) -> usize
    requires { (at < 1000000000) × (latest < u32_values) }
    ensures { Put out.old at (latest_text latest) out.new result × (result ≤ at + 10) }
{
    if latest == layout::NO_LATEST as usize {
        put_word(b"none", at, out)
    } else {
        put_decimal(latest, at, out)
    }
}

// Puts the gap of an order, from the gap plus `GAP_BIAS`.
fn put_gap(gap: usize, at: usize, out: &mut [u8]) -> usize
    requires { (at < 1000000000) × (gap < gap_span) }
    ensures { Put out.old at (gap_text gap) out.new result × (result ≤ at + 11) }
{
    if gap < layout::GAP_BIAS {
        put_field(b"-", layout::GAP_BIAS - gap, at, out)
    } else {
        put_decimal(gap - layout::GAP_BIAS, at, out)
    }
}

// Puts the first line.
pub fn put_head(file: &[u8], at: usize, out: &mut [u8]) -> usize
    requires { at < 100000000 }
    ensures { Put out.old at (head_line (contents_of file.now)) out.new result × (result ≤ at + head_most) }
{
    let steps = put_field(b"steps ", layout::steps(file), at, out);
    let rounds = put_field(b" rounds ", layout::rounds(file), steps, out);
    put_word(b"\n", rounds, out)
}

// Puts the line of a step.
pub fn put_window(file: &[u8], k: usize, at: usize, out: &mut [u8]) -> usize
    requires { (at < 100000000) × (k < u16_values) }
    ensures { Put out.old at (window_line (contents_of file.now) k) out.new result × (result ≤ at + window_most) }
{
    let step = put_field(b"step ", k, at, out);
    let earliest = put_field(b" earliest ", layout::earliest(file, k), step, out);
    let word = put_word(b" latest ", earliest, out);
    let latest = put_latest(layout::latest(file, k), word, out);
    put_word(b"\n", latest, out)
}

// Puts the line of an order.
pub fn put_order(file: &[u8], k: usize, at: usize, out: &mut [u8]) -> usize
    requires { (at < 100000000) × (k < u16_values) }
    ensures { Put out.old at (order_line (contents_of file.now) k) out.new result × (result ≤ at + order_most) }
{
    let first = put_field(b"order ", layout::first(file, k), at, out);
    let second = put_field(b" ", layout::second(file, k), first, out);
    let space = put_word(b" ", second, out);
    let gap = put_gap(layout::gap(file, k), space, out);
    put_word(b"\n", gap, out)
}
