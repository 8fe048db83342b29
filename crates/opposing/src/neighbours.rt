// Neighbours among the points of a group that differ at one tick.
ghost use Rattle.std.specs.Prelude.{◌≡◌, false, not, ◌&&◌, ◌+◌, ◌≤◌, ◌<◌, eqb, length, get_or};
ghost use Rattle.timeline.specs.Words.{word_tick, word_value};
ghost use Rattle.opposing.specs.Against.{Unmixed, FactsListed, FactsUnmixed};

use timeline::word::{begin_at, tick_of, value_of};

// Whether two points lie at one tick and have different values.
fn differ(a: u64, b: u64) -> bool
    ensures { result ≡ (eqb (word_tick a) (word_tick b) && not (eqb (word_value a) (word_value b))) }
{
    (tick_of(a) == tick_of(b)) & (value_of(a) != value_of(b))
}

// Whether two neighbours among a fact's setters differ at one tick.
fn mixed(points: &[u64], begins: &[u16], fact: usize) -> bool
    requires { (fact + 1 < length begins.now) × (get_or begins.now (fact + 1) 0 ≤ length points.now) }
    ensures { result ≡ false → Unmixed points.now (get_or begins.now fact 0) (get_or begins.now (fact + 1) 0) }
{
    let end = begin_at(begins, fact + 1);
    for p in begin_at(begins, fact) + 1..end {
        if differ(points[p - 1], points[p]) {
            return true;
        }
    }
    false
}

// Whether some fact's setters are.
pub fn any_mixed(facts: u16, points: &[u64], begins: &[u16]) -> bool
    requires { FactsListed facts points.now begins.now }
    ensures { result ≡ false → FactsUnmixed facts points.now begins.now }
{
    for fact in 0..facts {
        if mixed(points, begins, fact as usize) {
            return true;
        }
    }
    false
}
