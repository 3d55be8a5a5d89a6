// The fewest steps back to a number by layers: row e of `layers` has the numbers from which the fewest steps to it are e + 1.
ghost use Rattle.std.specs.Prelude.{◌+◌, ◌<◌, ◌≤◌, length};
ghost use Rattle.rows.specs.Sets.{Is};
ghost use Rattle.rows.specs.Rows.{Room};
ghost use Rattle.cycle.specs.Rounds.{Step, Enters, Layers, Searches, Onward, Back};

use rows::row::{has, put, row};
use rows::set::Set;

// What has a step to a number of row e.
fn leading_in<const W: usize>(m: &[[u64; W]], n: usize, layers: &[[u64; W]], e: usize) -> Set<W>
    requires { Room W n n m.now × (e < length layers.now) }
    ensures { Is result (Enters W n m.now layers.now e) }
{
    let mut found = Set::nothing();
    for c in row(layers, e).below(n) {
        found = found.or(row(m, c));
    }
    found
}

// The first layer: what has a step to s.
fn first_layer<const W: usize>(
    m: &[[u64; W]],
    n: usize,
    alive: &[[u64; W]],
    s: usize,
    layers: &mut [[u64; W]],
)
    requires { Searches W n m.now alive.now s layers.old }
    ensures { Layers (Step W n m.now alive.now) W s 1 layers.new }
{
    put(layers, 0, row(m, s).and(row(alive, 0)));
}

// One layer more: what has a step to the last one and was not met up to there.
fn next_layer<const W: usize>(
    m: &[[u64; W]],
    n: usize,
    alive: &[[u64; W]],
    met: &Set<W>,
    s: usize,
    e: usize,
    layers: &mut [[u64; W]],
)
    requires { Onward W n m.now alive.now met.now s e layers.old }
    ensures { Layers (Step W n m.now alive.now) W s (e + 1 + 1) layers.new }
{
    let before = leading_in(m, n, layers, e).and(row(alive, 0));
    put(layers, e + 1, before.without(*met));
}

// The fewest steps from s back to s, if they are fewer than the bound, else the bound.
pub fn steps_back<const W: usize>(
    m: &[[u64; W]],
    n: usize,
    alive: &[[u64; W]],
    s: usize,
    bound: usize,
    layers: &mut [[u64; W]],
) -> usize
    requires { Searches W n m.now alive.now s layers.old × (bound ≤ n + 1) }
    ensures { Back (Step W n m.now alive.now) W s bound result layers.new }
{
    first_layer(m, n, alive, s, layers);
    let mut met = Set::nothing();
    let mut e: usize = 0;
    while e + 1 < bound {
        if has(layers, s, e) {
            return e + 1;
        }
        let last = &row(layers, e);
        if last.is_empty() {
            return bound;
        }
        met = met.or(*last);
        next_layer(m, n, alive, &met, s, e, layers);
        e += 1;
    }
    bound
}
