// Pairs of a list of keys.
ghost use Rattle.std.specs.Prelude.{◌≡◌, suc, ◌*◌, ◌≤◌, ◌<◌, length, get_or, drop};
ghost use Rattle.job.specs.Layout.{most_effects};
ghost use Rattle.against.specs.Onward.{with_higher, through_pairs};
ghost use Rattle.pair_search.specs.Keys.{opposite, opposed};

use against::Search;

// The key that sets the same fact the other way at the same tick.
fn opposite_of(key: u32) -> u32
    ensures { result ≡ opposite key }
{
    key / 2 * 2 + (1 - key % 2)
}

// The key at place p with each of those behind it, up to the opposite one.
fn with_higher(keys: &[u32], p: usize) -> Search
    requires { (p < length keys.now) × (length keys.now ≤ most_effects) }
    ensures { (result ≡ with_higher opposed (get_or keys.now p 0) (drop (suc p) keys.now)) × (result.compared ≤ most_effects) }
{
    let n = keys.len();
    let other = opposite_of(keys[p]);
    for q in p + 1..n {
        if keys[q] == other {
            return Search {
                compared: (q - p) as u32,
                found: true,
            };
        }
    }
    Search {
        compared: (n - p - 1) as u32,
        found: false,
    }
}

// Each key with those behind it, up to the first pair found.
pub fn through_pairs(keys: &[u32]) -> Search
    requires { length keys.now ≤ most_effects }
    ensures { (result ≡ through_pairs opposed keys.now) × (result.compared ≤ most_effects * most_effects) }
{
    let n = keys.len();
    let mut compared = 0;
    for p in 0..n {
        let search = with_higher(keys, p);
        compared += search.compared;
        if search.found {
            return Search {
                compared,
                found: true,
            };
        }
    }
    Search {
        compared,
        found: false,
    }
}
