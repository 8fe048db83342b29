// The text of an order file: header, windows, orders and links, or the line of its refusal.
#![tactic(auto)]

mod lines;

ghost use Rattle.std.specs.Prelude.{◌+◌, ◌*◌, ◌≤◌, ◌<◌};
ghost use Rattle.laws.specs.Listed.{concatenate};
ghost use Rattle.order_file.specs.Layout.{contents_of};
ghost use Rattle.order_text.specs.Text.{window_line, link_line, file_text, order_text, window_most, link_most, file_most, text_most};
ghost use Rattle.text.specs.Put.{Put, Written};
ghost use Rattle.little_endian.specs.Bytes.{u16_values};

use order_answers::NotAnOrderFile;
use order_file::layout;

// The longest text.
pub const MOST_TEXT: usize = 186566;

// Puts the lines of all steps. The loop of `put_links` differs in the line alone: a closure for that would need a longer contract
// than the loop.
fn put_windows(file: &[u8], steps: usize, at: usize, out: &mut [u8]) -> usize
    requires { (at < 1000) × (steps < u16_values) }
    ensures { Put out.old at (concatenate steps (window_line (contents_of file.now))) out.new result
        × (result ≤ at + window_most * steps) }
{
    let mut next = at;
    for k in 0..steps {
        next = lines::put_window(file, k, next, out);
    }
    next
}

// Puts the lines of all links.
fn put_links(file: &[u8], links: usize, at: usize, out: &mut [u8]) -> usize
    requires { (at < 10000000) × (links < u16_values) }
    ensures { Put out.old at (concatenate links (link_line (contents_of file.now))) out.new result
        × (result ≤ at + link_most * links) }
{
    let mut next = at;
    for k in 0..links {
        next = lines::put_link(file, k, next, out);
    }
    next
}

// Puts the text of what a file says at the front of `out`.
fn put_file(file: &[u8], out: &mut [u8]) -> usize
    ensures put { Put out.old 0 (file_text (contents_of file.now)) out.new result }
    ensures upper_bound { result ≤ file_most (contents_of file.now).steps (contents_of file.now).orders (contents_of file.now).links }
{
    let windows_at = lines::put_head(file, out);
    let orders_at = put_windows(file, layout::steps(file), windows_at, out);
    let links_at = sheet::put_orders(file, layout::orders(file), orders_at, out);
    put_links(file, layout::links(file), links_at, out)
}

// Writes the text of an order file, or of its refusal, to the front of `out`, and answers how long it is, whether or not there was room for it.
pub fn write_text(file: &[u8], out: &mut [u8]) -> usize
    ensures written { Written (order_text file.now) out.old out.new result }
    ensures upper_bound { result ≤ text_most }
{
    if order_check::well_formed(file) {
        put_file(file, out)
    } else {
        sheet::write_refused(NotAnOrderFile.number(), NotAnOrderFile.place(), out)
    }
}
