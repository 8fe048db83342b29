// Whether bytes are an order file: the clauses of refusal 16. Each walk over records stays a function of its own: in one they are slower.
#![tactic(auto)]

ghost use Rattle.std.specs.Prelude.{◌≡◌, ◌<◌, ◌-◌};
ghost use Rattle.laws.specs.Search.{all};
ghost use Rattle.order_file.specs.Layout.{contents_of};
ghost use Rattle.order_check.specs.WellFormed.{layout_holds, length_holds, counts_hold, order_holds, ascends};
ghost use Rattle.order_check.specs.WellFormed.{link_holds, rounds_hold, window_holds, well_formed};

use order_file::layout;

// The edition, and the offsets of tables without gaps.
fn layout_holds(file: &[u8]) -> bool
    ensures { result ≡ layout_holds file.now }
{
    let steps = layout::steps(file);
    let orders = layout::orders(file);
    (little_endian::u16_at(file, 0) == layout::FILE_EDITION)
        & (little_endian::u32_at(file, 12) == layout::WINDOWS_AT)
        & (little_endian::u32_at(file, 16) == layout::window_at(steps))
        & (little_endian::u32_at(file, 20) == layout::order_at(steps, orders))
}

// As long as the tables.
fn length_holds(file: &[u8]) -> bool
    ensures { result ≡ length_holds file.now }
{
    let steps = layout::steps(file);
    let orders = layout::orders(file);
    let links = layout::links(file);
    file.len() == layout::link_at(steps, orders, links)
}

// No count over its highest.
fn counts_hold(file: &[u8]) -> bool
    ensures { result ≡ counts_hold (contents_of file.now) }
{
    (layout::steps(file) <= layout::MOST_STEPS)
        & (layout::orders(file) <= layout::MOST_ORDERS)
        & (layout::links(file) <= layout::MOST_LINKS)
}

// One order: its steps counted and apart, its gap in range.
fn order_holds(file: &[u8], k: usize) -> bool
    requires { k < 65536 }
    ensures { result ≡ order_holds (contents_of file.now) k }
{
    let steps = layout::steps(file);
    let first = layout::first(file, k);
    let second = layout::second(file, k);
    let gap = layout::gap(file, k);
    (first < steps)
        & (second < steps)
        & (first != second)
        & (layout::LEAST_GAP <= gap)
        & (gap <= layout::MOST_GAP)
}

#[inline(never)]
fn orders_hold(file: &[u8]) -> bool
    ensures { result ≡ all (contents_of file.now).orders (order_holds (contents_of file.now)) }
{
    for k in 0..layout::orders(file) {
        if !order_holds(file, k) {
            return false;
        }
    }
    true
}

// An order and the next one, by first and then second.
fn ascends_at(file: &[u8], k: usize) -> bool
    requires { k < 65535 }
    ensures { result ≡ ascends (contents_of file.now) k }
{
    let first = layout::first(file, k);
    let next = layout::first(file, k + 1);
    let second = layout::second(file, k);
    let next_second = layout::second(file, k + 1);
    (first < next) | ((first == next) & (second < next_second))
}

#[inline(never)]
fn orders_ascend(file: &[u8]) -> bool
    ensures { result ≡ all ((contents_of file.now).orders - 1) (ascends (contents_of file.now)) }
{
    for k in 0..layout::orders(file).saturating_sub(1) {
        if !ascends_at(file, k) {
            return false;
        }
    }
    true
}

// One link: the number of an effect or of a timed fact, or the initial state.
fn link_holds(file: &[u8], k: usize) -> bool
    requires { k < 65536 }
    ensures { result ≡ link_holds (contents_of file.now) k }
{
    let link = layout::link(file, k);
    (link <= layout::LAST_LINK) | (link == layout::INITIAL_STATE as usize)
}

#[inline(never)]
fn links_hold(file: &[u8]) -> bool
    ensures { result ≡ all (contents_of file.now).links (link_holds (contents_of file.now)) }
{
    for k in 0..layout::links(file) {
        if !link_holds(file, k) {
            return false;
        }
    }
    true
}

// No more rounds than steps.
fn rounds_hold(file: &[u8]) -> bool
    ensures { result ≡ rounds_hold (contents_of file.now) }
{
    layout::rounds(file) <= layout::steps(file)
}

// One window: its earliest time from its limit to its latest start.
fn window_holds(file: &[u8], k: usize) -> bool
    requires { k < 65536 }
    ensures { result ≡ window_holds (contents_of file.now) k }
{
    let earliest = layout::earliest(file, k);
    (layout::limit(file, k) <= earliest) & (earliest <= layout::latest(file, k))
}

#[inline(never)]
fn windows_hold(file: &[u8]) -> bool
    ensures { result ≡ all (contents_of file.now).steps (window_holds (contents_of file.now)) }
{
    for k in 0..layout::steps(file) {
        if !window_holds(file, k) {
            return false;
        }
    }
    true
}

// All of refusal 16.
pub fn well_formed(file: &[u8]) -> bool
    ensures { result ≡ well_formed file.now }
{
    if layout_holds(file) & length_holds(file) & counts_hold(file) {
        orders_hold(file)
            & orders_ascend(file)
            & links_hold(file)
            & rounds_hold(file)
            & windows_hold(file)
    } else {
        false
    }
}
