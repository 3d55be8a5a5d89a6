// The least cycle of wb0 or of the steps among SC records, with rows of working room.
ghost use Rattle.std.specs.Prelude.{◌≤◌, length};
ghost use Rattle.laws.specs.Steps.{IsCycle};
ghost use Rattle.laws.specs.Witness.{CycleWith};
ghost use Rattle.findings.specs.Meant.{FindsIn};
ghost use Rattle.cycle.specs.Distances.{Wrote};
ghost use Rattle.table.specs.Events.{events_of};
ghost use Rattle.facts.specs.Sound.{Counted};
ghost use Rattle.tracing.specs.Layers.{Numbered};
ghost use Rattle.tracing.specs.Cycles.{Back, StartOf, NextOf, Writes};

use crate::layers::{NONE, Steps, steps_to};
use findings::Found;
use limits::LIMIT;

// The fewest steps from s back to s, or 255.
fn back<S: Steps>(table: &[u8], n: usize, s: usize) -> u8
    requires { Numbered table.now n s }
    ensures { Back (S.step (events_of table.now)) s result }
{
    steps_to::<S>(table, n, s)[s]
}

// The first record with the fewest steps back to itself.
fn least_start<S: Steps>(table: &[u8], n: usize) -> Option<usize>
    requires { Counted table.now n }
    ensures { StartOf (S.step (events_of table.now)) n result }
{
    let mut best = NONE;
    let mut at = None;
    for s in 0..n {
        let d = back::<S>(table, n, s);
        if d < best {
            best = d;
            at = Some(s);
        }
    }
    at
}

// The first record with a step from a and the entry k.
fn next_of<S: Steps>(table: &[u8], dist: &[u8; LIMIT], n: usize, a: usize, k: u8) -> Option<usize>
    requires { Numbered table.now n a }
    ensures { NextOf (S.step (events_of table.now)) n dist.now a k result }
{
    (0..n).find(|&x| dist[x] == k && S::is_step(table, n, a, x))
}

// The least cycle from s, of len records, at the front of `out`.
fn write_cycle<S: Steps>(
    table: &[u8],
    dist: &[u8; LIMIT],
    n: usize,
    s: usize,
    len: usize,
    out: &mut [u8],
)
    requires { Writes (S.step (events_of table.now)) table.now n s len dist.now out.old }
    ensures { Wrote (S.step (events_of table.now)) s len out.old out.new }
{
    out[0] = s as u8;
    let mut a = s;
    for i in 1..len {
        a = next_of::<S>(table, dist, n, a, (len - i) as u8).unwrap();
        out[i] = a as u8;
    }
}

// The least cycle, at the front of `out`.
pub fn least_cycle<S: Steps>(table: &[u8], n: usize, out: &mut [u8]) -> Found
    requires { Counted table.now n × (n ≤ length out.old) }
    ensures { FindsIn (CycleWith (IsCycle (S.step (events_of table.now)))) out.old out.new result }
{
    let Some(s) = least_start::<S>(table, n) else {
        return Found::Nothing;
    };
    let dist = steps_to::<S>(table, n, s);
    let len = dist[s] as usize;
    write_cycle::<S>(table, &dist, n, s, len, out);
    Found::Cycle(len)
}
