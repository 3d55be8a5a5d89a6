// The least start, and from there the least next record again and again.
ghost use Rattle.rows.specs.Rows.{Room};
ghost use Rattle.cycle.specs.Rounds.{Step, LayerRoom, StartOf, Choosing, FirstStep, Writes, WroteBack};

use crate::layers::steps_back;
use rows::row::{drop, has, put, row};

// The first number with the fewest steps back to itself, if there is one. A number that was tried is left out from then on: whatever leads back by way
// of it was met. `rest` is room for a row.
pub fn least_start<const W: usize>(
    m: &[[u64; W]],
    n: usize,
    alive: &[[u64; W]],
    rest: &mut [[u64; W]],
    layers: &mut [[u64; W]],
) -> Option<usize>
    requires { LayerRoom W n m.now alive.now layers.old × Room W n 1 rest.old }
    ensures { StartOf (Step W n m.now alive.now) n result }
{
    put(rest, 0, row(alive, 0));
    let mut best = n + 1;
    let mut at = None;
    for s in row(alive, 0).below(n) {
        let len = steps_back(m, n, rest, s, best, layers);
        if len < best {
            best = len;
            at = Some(s);
        }
        drop(rest, s, 0);
    }
    at
}

// The first number of row e that a has a step to, or n.
fn next_of<const W: usize>(
    m: &[[u64; W]],
    n: usize,
    layers: &[[u64; W]],
    e: usize,
    a: usize,
) -> usize
    requires { Choosing W n m.now layers.now e a }
    ensures { FirstStep W n m.now layers.now e a result }
{
    for x in row(layers, e).below(n) {
        if has(m, a, x) {
            return x;
        }
    }
    n
}

// The least cycle from s, at the front of `out`. Returns how many records it has.
pub fn write_cycle<const W: usize>(
    m: &[[u64; W]],
    n: usize,
    alive: &[[u64; W]],
    s: usize,
    layers: &mut [[u64; W]],
    out: &mut [u8],
) -> usize
    requires { Writes W n m.now alive.now s layers.old out.old }
    ensures { WroteBack (Step W n m.now alive.now) s result out.old out.new }
{
    let len = steps_back(m, n, alive, s, n + 1, layers);
    out[0] = s as u8;
    let mut a = s;
    for i in 1..len {
        a = next_of(m, n, layers, len - i - 1, a);
        out[i] = a as u8;
    }
    len
}
