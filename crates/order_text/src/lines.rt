// The lines of the text that the sheet does not have, each put into a buffer from a position on.
ghost use Rattle.std.specs.Prelude.{◌+◌, ◌≤◌, ◌<◌};
ghost use Rattle.order_file.specs.Layout.{contents_of};
ghost use Rattle.order_text.specs.Text.{head_line, times_text, window_line, target_text, link_line};
ghost use Rattle.order_text.specs.Text.{head_most, times_most, window_most, target_most, link_most};
ghost use Rattle.text.specs.Put.{Put};
ghost use Rattle.little_endian.specs.Bytes.{u16_values};

use job::layout::Job;
use order_file::layout;
use sheet::lines::put_latest;
use text::{put_field, put_word};

// Puts the first line at the front.
pub fn put_head(file: &[u8], out: &mut [u8]) -> usize
    ensures { Put out.old 0 (head_line (contents_of file.now)) out.new result × (result ≤ head_most) }
{
    let steps = put_field(b"steps ", layout::steps(file), 0, out);
    let orders = put_field(b" orders ", layout::orders(file), steps, out);
    let links = put_field(b" links ", layout::links(file), orders, out);
    let rounds = put_field(b" rounds ", layout::rounds(file), links, out);
    put_word(b"\n", rounds, out)
}

// Puts the times of a step's window.
fn put_times(file: &[u8], k: usize, at: usize, out: &mut [u8]) -> usize
    requires { (at < 200000000) × (k < u16_values) }
    ensures { Put out.old at (times_text (contents_of file.now) k) out.new result × (result ≤ at + times_most) }
{
    let limit = put_field(b" limit ", layout::limit(file, k), at, out);
    let word = put_word(b" latest ", limit, out);
    let latest = put_latest(layout::latest(file, k), word, out);
    put_field(b" earliest ", layout::earliest(file, k), latest, out)
}

// Puts the line of a step.
pub fn put_window(file: &[u8], k: usize, at: usize, out: &mut [u8]) -> usize
    requires { (at < 100000000) × (k < u16_values) }
    ensures { Put out.old at (window_line (contents_of file.now) k) out.new result × (result ≤ at + window_most) }
{
    let step = put_field(b"step ", k, at, out);
    let times = put_times(file, k, step, out);
    put_word(b"\n", times, out)
}

// Puts what a link leads to.
fn put_target(link: usize, at: usize, out: &mut [u8]) -> usize
    requires { (at < 200000000) × (link < u16_values) }
    ensures { Put out.old at (target_text link) out.new result × (result ≤ at + target_most) }
{
    if link == layout::INITIAL_STATE as usize {
        put_word(b" initial state", at, out)
    } else if link < Job::EFFECTS as usize {
        put_field(b" effect ", link, at, out)
    } else {
        put_field(b" timed fact ", link - Job::EFFECTS as usize, at, out)
    }
}

// Puts the line of a link.
pub fn put_link(file: &[u8], k: usize, at: usize, out: &mut [u8]) -> usize
    requires { (at < 100000000) × (k < u16_values) }
    ensures { Put out.old at (link_line (contents_of file.now) k) out.new result × (result ≤ at + link_most) }
{
    let number = put_field(b"link ", k, at, out);
    let target = put_target(layout::link(file, k), number, out);
    put_word(b"\n", target, out)
}
