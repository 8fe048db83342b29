// Whether two order files say the same. Each walk over records stays a function of its own, as in `order_check`.
ghost use Rattle.std.specs.Prelude.{◌≡◌, ◌<◌};
ghost use Rattle.laws.specs.Search.{all};
ghost use Rattle.order_file.specs.Layout.{contents_of};
ghost use Rattle.order_answers.specs.Alike.{same_counts, same_window, same_order, alike_contents};

use order_file::layout;

// As many steps and as many orders.
fn same_counts(a: &[u8], b: &[u8]) -> bool
    ensures { result ≡ same_counts (contents_of a.now) (contents_of b.now) }
{
    (layout::steps(a) == layout::steps(b)) & (layout::orders(a) == layout::orders(b))
}

// The limit and the latest start of a step.
fn same_window(a: &[u8], b: &[u8], k: usize) -> bool
    requires { k < 65536 }
    ensures { result ≡ same_window (contents_of a.now) (contents_of b.now) k }
{
    (layout::limit(a, k) == layout::limit(b, k)) & (layout::latest(a, k) == layout::latest(b, k))
}

#[inline(never)]
fn same_windows(a: &[u8], b: &[u8]) -> bool
    ensures { result ≡ all (contents_of a.now).steps (same_window (contents_of a.now) (contents_of b.now)) }
{
    for k in 0..layout::steps(a) {
        if !same_window(a, b, k) {
            return false;
        }
    }
    true
}

// One order.
fn same_order(a: &[u8], b: &[u8], k: usize) -> bool
    requires { k < 65536 }
    ensures { result ≡ same_order (contents_of a.now) (contents_of b.now) k }
{
    (layout::first(a, k) == layout::first(b, k))
        & (layout::second(a, k) == layout::second(b, k))
        & (layout::gap(a, k) == layout::gap(b, k))
}

#[inline(never)]
fn same_orders(a: &[u8], b: &[u8]) -> bool
    ensures { result ≡ all (contents_of a.now).orders (same_order (contents_of a.now) (contents_of b.now)) }
{
    for k in 0..layout::orders(a) {
        if !same_order(a, b, k) {
            return false;
        }
    }
    true
}

pub fn same_contents(a: &[u8], b: &[u8]) -> bool
    ensures { result ≡ alike_contents (contents_of a.now) (contents_of b.now) }
{
    same_counts(a, b) & same_windows(a, b) & same_orders(a, b)
}
