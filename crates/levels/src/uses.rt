// Of refusal 7: two uses of one level by one step at one tick, found along the points of the level.
ghost use Rattle.std.specs.Prelude.{◌≡◌, false, ◌+◌, ◌≤◌, ◌<◌, length};
ghost use Rattle.opposing.specs.Against.{Rising};
ghost use Rattle.levels.specs.UsesApart.{Single, StepsApart, LevelsListed, LevelsApart};

use timeline::word::{begin_at, step_of, tick_of};

// Whether the point at place q has the step of one before it at its tick.
fn repeated(points: &[u64], low: usize, q: usize) -> bool
    requires { (q < length points.now) × Rising points.now low q }
    ensures { result ≡ false → Single points.now low q }
{
    let tick = tick_of(points[q]);
    let step = step_of(points[q]);
    for p in (low..q).rev() {
        if tick_of(points[p]) < tick {
            return false;
        }
        if step_of(points[p]) == step {
            return true;
        }
    }
    false
}

// Whether two points from a place to another have one tick and one step.
fn twice(points: &[u64], low: usize, high: usize) -> bool
    requires { (high ≤ length points.now) × Rising points.now low high }
    ensures { result ≡ false → StepsApart points.now low high }
{
    for q in low..high {
        if repeated(points, low, q) {
            return true;
        }
    }
    false
}

// Whether a step uses a level twice at one tick.
pub fn any_twice(facts: u16, levels: u16, points: &[u64], begins: &[u16]) -> bool
    requires { LevelsListed facts levels points.now begins.now }
    ensures { result ≡ false → LevelsApart facts levels points.now begins.now }
{
    for l in 0..levels {
        let group = facts as usize + facts as usize + l as usize;
        let low = begin_at(begins, group);
        let high = begin_at(begins, group + 1);
        if twice(points, low, high) {
            return true;
        }
    }
    false
}
