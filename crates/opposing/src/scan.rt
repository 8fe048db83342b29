// Scans of a group from a place on for what stands against a value.
ghost use Rattle.std.specs.Prelude.{◌≡◌, true, ◌≤◌, length};
ghost use Rattle.opposing.specs.Against as inner;
ghost use Rattle.opposing.specs.Against.{OfValue, Rising, Scanned, Past};

use timeline::word::{step_of, tick_of, value_of};

// Whether a point is of another step and has another value.
fn against(word: u64, value: u16, step: u16) -> bool
    ensures { result ≡ inner.against word value step }
{
    (step_of(word) != step) & (value_of(word) != value)
}

// Whether a point from a place on, up to tick `last`, is of another step and has another value.
pub fn opposed_from(
    points: &[u64],
    from: usize,
    high: usize,
    last: usize,
    value: u16,
    step: u16,
) -> bool
    requires { (high ≤ length points.now) × Rising points.now from high }
    ensures { Scanned points.now from high last value step result }
{
    for p in from..high {
        if last < tick_of(points[p]) {
            return false;
        }
        if against(points[p], value, step) {
            return true;
        }
    }
    false
}

// The first place from `from` on where the value is another; the end, or `from` where that is past it, if there is none.
pub fn opposing_from(points: &[u64], from: usize, high: usize, value: u16) -> usize
    requires { high ≤ length points.now }
    ensures { (from ≤ result) × OfValue points.now from result value }
{
    for p in from..high {
        if value_of(points[p]) != value {
            return p;
        }
    }
    from.max(high)
}

// Whether no point from a place on lies up to tick `last`.
pub fn is_past(points: &[u64], from: usize, high: usize, last: usize) -> bool
    requires { (high ≤ length points.now) × Rising points.now from high }
    ensures { result ≡ true → Past points.now from high last }
{
    if high <= from {
        return true;
    }
    last < tick_of(points[from])
}
