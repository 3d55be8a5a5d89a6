// The numbers that can be on a cycle: something of them leads to each, and each leads to something of them.
ghost use Rattle.rows.specs.Rows.{Room};
ghost use Rattle.cycle.specs.Trimmed.{Trims, TrimRoom, Filled, Keeps, Feeds};

use rows::row::{add, drop, put, row};
use rows::set::Set;

// The numbers below n.
fn fill<const W: usize>(n: usize, alive: &mut [[u64; W]])
    requires { Room W n 1 alive.old }
    ensures { Filled W n alive.new }
{
    put(alive, 0, Set::nothing());
    for a in 0..n {
        add(alive, a, 0);
    }
}

// Whatever nothing alive leads to is dropped. Returns what leads to the rest.
fn drop_unfed<const W: usize>(m: &[[u64; W]], n: usize, alive: &mut [[u64; W]]) -> Set<W>
    requires { Trims W n m.now alive.old }
    ensures { Feeds W n m.now n alive.new result }
{
    let mut sources = Set::nothing();
    for b in row(alive, 0).below(n) {
        let before = &row(m, b);
        if before.and(row(alive, 0)).is_empty() {
            drop(alive, b, 0);
        } else {
            sources = sources.or(*before);
        }
    }
    sources
}

// Whatever nothing alive leads to, and whatever then leads to nothing alive, is dropped. Returns whether something was.
fn trim_pass<const W: usize>(m: &[[u64; W]], n: usize, alive: &mut [[u64; W]]) -> bool
    requires { Trims W n m.now alive.old }
    ensures { Keeps W n m.now alive.new }
{
    let had = row(alive, 0);
    let sources = drop_unfed(m, n, alive);
    let left = &row(alive, 0).and(sources);
    put(alive, 0, *left);
    !had.without(*left).is_empty()
}

// Passes until one drops nothing; n are always enough.
pub fn trim<const W: usize>(m: &[[u64; W]], n: usize, alive: &mut [[u64; W]])
    requires { TrimRoom W n m.now alive.old }
    ensures { Keeps W n m.now alive.new }
{
    fill(n, alive);
    for _ in 0..n {
        if !trim_pass(m, n, alive) {
            return;
        }
    }
}
