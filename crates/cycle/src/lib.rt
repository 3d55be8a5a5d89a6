// The least cycle of a relation that is held in rows of words: looked for only among what can be on a cycle, and by set bits.
#![tactic(auto)]

mod greedy;
mod layers;
mod trim;

ghost use Rattle.laws.specs.Says.{Says};
ghost use Rattle.laws.specs.Steps.{IsCycle};
ghost use Rattle.laws.specs.Witness.{CycleWith};
ghost use Rattle.findings.specs.Meant.{FindsIn};
ghost use Rattle.rows.specs.Rows.{Room, Cell};
ghost use Rattle.cycle.specs.Rounds.{Step, GoesBack, Lends, LendsAlive};

use crate::greedy::{least_start, write_cycle};
use crate::trim::trim;
use findings::Found;
use rows::search::next;

// Whether some step goes from a number to one that is not higher.
pub fn goes_back<const W: usize>(m: &[[u64; W]], n: usize) -> bool
    requires { Room W n n m.now }
    ensures { Says result (GoesBack W n m.now) }
{
    for b in 0..n {
        if next(m, b, b) < 64 * W {
            return true;
        }
    }
    false
}

// The least cycle among the numbers that are alive, at the front of `out`.
fn least_cycle_among<const W: usize>(
    m: &[[u64; W]],
    n: usize,
    alive: &[[u64; W]],
    layers: &mut [[u64; W]],
    out: &mut [u8],
) -> Found
    requires { LendsAlive W n m.now alive.now layers.old out.old }
    ensures { FindsIn (CycleWith (IsCycle (Step W n m.now alive.now))) out.old out.new result }
{
    let mut rest = [[0u64; W]; 1];
    match least_start(m, n, alive, &mut rest, layers) {
        Some(s) => Found::Cycle(write_cycle(m, n, alive, s, layers, out)),
        None => Found::Nothing,
    }
}

// The least cycle of m, at the front of `out`. `back` says whether some step goes back: where none does there is none. `layers` is room to work in.
pub fn least_cycle<const W: usize>(
    m: &[[u64; W]],
    back: bool,
    n: usize,
    layers: &mut [[u64; W]],
    out: &mut [u8],
) -> Found
    requires { Lends W n m.now layers.old out.old × Says back (GoesBack W n m.now) }
    ensures { FindsIn (CycleWith (IsCycle (Cell W n m.now))) out.old out.new result }
{
    if back {
        let mut alive = [[0u64; W]; 1];
        trim(m, n, &mut alive);
        least_cycle_among(m, n, &alive, layers, out)
    } else {
        Found::Nothing
    }
}
