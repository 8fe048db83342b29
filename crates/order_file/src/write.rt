// Writing an order file into a caller's bytes: header, windows, orders, links.
ghost use Rattle.std.specs.Prelude.{◌≡◌, ℕ, ◌+◌, ◌*◌, ◌≤◌, ◌<◌, List, length};
ghost use Rattle.std.proofs.lemmas.List.Edits.{sets};
ghost use Rattle.laws.specs.Listed.{concatenate};
ghost use Rattle.laws.specs.Nth.{count};
ghost use Rattle.little_endian.specs.Bytes.{u32_values};
ghost use Rattle.order_file.specs.Contents.{step_limit};
ghost use Rattle.order_file.specs.Layout.{windows_at, window_at};
ghost use Rattle.order_file.specs.Table.{row_width, table_size, table_bias};
ghost use Rattle.order_file.specs.Encode.{header_with, window_with, encode};
ghost use Rattle.order_file.specs.Held.{entered, held_in, window_in, entry_bytes, order_in, link_in, over, NoneBeyond, OrdersPut, OrdersFit, Roomy};

use crate::layout;
use crate::layout::{FILE_WIDTHS, LINK, ORDER};
use crate::table::{ENTRY_BIAS, TABLE_BIAS, WIDTH};
use little_endian::{U32_VALUES, put_u16, put_u16_within, put_u32, put_u32_within};

// What takes the bias off an entry of the table, counted round below 0.
const UNBIASED: usize = U32_VALUES - ENTRY_BIAS as usize;

// The counts of a file, and its rounds.
#[derive(Clone, Copy)]
pub struct Header {
    pub steps: usize,
    pub orders: usize,
    pub links: usize,
    pub rounds: usize,
}

// How many orders the table of the first steps holds, counted in as many bits as an entry has: the compiler takes several at a time.
pub fn count_orders(gaps: &[u32], steps: usize) -> usize
    requires { (length gaps.now ≡ table_size) × (steps ≤ step_limit) × NoneBeyond steps gaps.now }
    ensures { (result ≡ count table_size (entered gaps.now)) × (result ≤ table_size) }
{
    let mut orders = 0u32;
    for q in 0..WIDTH * steps {
        if TABLE_BIAS < gaps[q] {
            orders += 1;
        }
    }
    orders as usize
}

// Puts the counts, the rounds and the tables' offsets.
fn write_header(header: Header, out: &mut [u8])
    requires { (header.steps ≤ step_limit) × (header.orders ≤ table_size) }
    ensures { out.new ≡ sets out.old 0 (header_with header.steps header.orders header.links header.rounds) }
{
    let steps = header.steps;
    let orders = header.orders;
    put_u16(0, layout::FILE_EDITION, out);
    put_u16(2, steps, out);
    put_u16(4, orders, out);
    put_u16(6, header.links, out);
    put_u32(8, header.rounds, out);
    put_u32(12, layout::WINDOWS_AT, out);
    put_u32(16, layout::window_at(steps), out);
    put_u32(20, layout::order_at(steps, orders), out);
}

// Puts three numbers, one behind the other.
fn write_window(at: usize, limit: usize, latest: usize, earliest: usize, out: &mut [u8])
    requires { at + 12 ≤ length out.old }
    ensures { out.new ≡ sets out.old at (window_with limit latest earliest) }
{
    put_u32_within(at, limit, out);
    put_u32_within(at + 4, latest, out);
    put_u32_within(at + 8, earliest, out);
}

// Puts the windows of the first steps; there is room for them.
fn write_windows(steps: usize, limits: &[u32], latest: &[u32], earliest: &[u32], out: &mut [u8])
    requires { (window_at steps ≤ length out.old) × (steps ≤ step_limit) × (steps ≤ length limits.now) × (steps ≤ length latest.now)
        × (steps ≤ length earliest.now) }
    ensures { out.new
        ≡ sets out.old windows_at (concatenate steps (window_in limits.now latest.now earliest.now)) }
{
    for k in 0..steps {
        write_window(
            layout::window_at(k),
            limits[k] as usize,
            latest[k] as usize,
            earliest[k] as usize,
            out,
        );
    }
}

// Puts the order at an entry of the table of gaps: its steps, and the gap's bits.
fn write_order(at: usize, q: usize, entry: usize, out: &mut [u8])
    requires { (at + 8 ≤ length out.old) × (table_bias < entry) × (entry < u32_values) }
    ensures { out.new ≡ sets out.old at (entry_bytes q entry) }
{
    put_u16_within(at, q / WIDTH, out);
    put_u16_within(at + 2, q % WIDTH, out);
    put_u32_within(at + 4, (entry + UNBIASED) % U32_VALUES, out);
}

// Puts the orders from step i to the first steps, behind those from the steps before it, and hands back where the next one comes.
fn write_row(from: usize, gaps: &[u32], i: usize, steps: usize, out: &mut [u8]) -> usize
    requires { ((before : List ℕ) × (start : ℕ) × OrdersFit gaps.now before start (row_width * i) from out.old)
        × (length gaps.now ≡ table_size) × (i < steps) × (steps ≤ step_limit) × NoneBeyond steps gaps.now }
    ensures { (before : List ℕ) (start : ℕ) → OrdersPut gaps.now before start (row_width * i) from out.old
        → OrdersPut gaps.now before start (row_width * (i + 1)) result out.new }
{
    let row = WIDTH * i;
    let mut at = from;
    for q in row..row + steps {
        if TABLE_BIAS < gaps[q] {
            write_order(at, q, gaps[q] as usize, out);
            at += FILE_WIDTHS[ORDER];
        }
    }
    at
}

// Puts every order that the table of the first steps holds, ascending; there is room for all.
fn write_orders(from: usize, gaps: &[u32], steps: usize, out: &mut [u8])
    requires { (from + 8 * count table_size (entered gaps.now) ≤ length out.old) × (length gaps.now ≡ table_size) × (steps ≤ step_limit)
        × NoneBeyond steps gaps.now }
    ensures { out.new
        ≡ sets out.old from (concatenate (count table_size (entered gaps.now)) (order_in gaps.now)) }
{
    let mut at = from;
    for i in 0..steps {
        at = write_row(at, gaps, i, steps, out);
    }
}

// Puts the first links; there is room for them.
fn write_links(from: usize, links: usize, linked: &[u16], out: &mut [u8])
    requires { (from + 2 * links ≤ length out.old) × (links ≤ length linked.now) }
    ensures { out.new ≡ sets out.old from (concatenate links (link_in linked.now)) }
{
    for j in 0..links {
        put_u16_within(from + FILE_WIDTHS[LINK] * j, linked[j] as usize, out);
    }
}

// Writes the file of the contents that the lists hold; the bytes past its end stay.
pub fn write_file(
    header: Header,
    limits: &[u32],
    latest: &[u32],
    earliest: &[u32],
    gaps: &[u32],
    linked: &[u16],
    out: &mut [u8],
)
    requires { Roomy header limits.now latest.now earliest.now gaps.now linked.now out.old }
    ensures { out.new
        ≡ over
        (encode
        (held_in header.steps header.links header.rounds limits.now latest.now earliest.now
        gaps.now linked.now))
        out.old }
{
    let steps = header.steps;
    let orders = header.orders;
    let links = header.links;
    write_header(header, out);
    write_windows(steps, limits, latest, earliest, out);
    write_orders(layout::window_at(steps), gaps, steps, out);
    write_links(layout::order_at(steps, orders), links, linked, out);
}
