// The text that `show` prints: the sheet of an order file, or the line of a refusal.
#![tactic(auto)]

pub mod lines;

ghost use Rattle.std.specs.Prelude.{◌+◌, ◌*◌, ◌≤◌, ◌<◌};
ghost use Rattle.laws.specs.Listed.{concatenate};
ghost use Rattle.order_file.specs.Layout.{contents_of};
ghost use Rattle.sheet.specs.Text.{window_line, order_line, sheet_text, refused_text, window_most, order_most, refused_most, sheet_most};
ghost use Rattle.text.specs.Put.{Put, Written};
ghost use Rattle.little_endian.specs.Bytes.{u16_values};

use order_file::layout;

// Puts the lines of all steps. The loop of `put_orders` differs in the line alone: a closure for that would need a longer contract
// than the loop.
fn put_windows(file: &[u8], steps: usize, at: usize, out: &mut [u8]) -> usize
    requires { (at < 1000) × (steps < u16_values) }
    ensures { Put out.old at (concatenate steps (window_line (contents_of file.now))) out.new result
        × (result ≤ at + window_most * steps) }
{
    let mut next = at;
    for k in 0..steps {
        next = lines::put_window(file, k, next, out);
    }
    next
}

// Puts the lines of all orders.
pub fn put_orders(file: &[u8], orders: usize, at: usize, out: &mut [u8]) -> usize
    requires { (at < 10000000) × (orders < u16_values) }
    ensures { Put out.old at (concatenate orders (order_line (contents_of file.now))) out.new result
        × (result ≤ at + order_most * orders) }
{
    let mut next = at;
    for k in 0..orders {
        next = lines::put_order(file, k, next, out);
    }
    next
}

// Puts the text of an order file, and answers where it ends, whether or not there was room for it.
pub fn put_sheet(file: &[u8], at: usize, out: &mut [u8]) -> usize
    requires { at < 100 }
    ensures put { Put out.old at (sheet_text (contents_of file.now)) out.new result }
    ensures upper_bound { result ≤ at + sheet_most (contents_of file.now).steps (contents_of file.now).orders }
{
    let steps = layout::steps(file);
    let orders = layout::orders(file);
    let windows_at = lines::put_head(file, at, out);
    let orders_at = put_windows(file, steps, windows_at, out);
    put_orders(file, orders, orders_at, out)
}

// Writes the line of a refusal to the front of `out`, and answers how long it is, whether or not there was room for it.
pub fn write_refused(number: u16, place: u16, out: &mut [u8]) -> usize
    ensures written { Written (refused_text number place) out.old out.new result }
    ensures upper_bound { result ≤ refused_most }
{
    let refused = text::put_field(b"refused ", number as usize, 0, out);
    let placed = text::put_field(b" place ", place as usize, refused, out);
    text::put_word(b"\n", placed, out)
}
