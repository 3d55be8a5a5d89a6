// What stands under another arm of a branch: downward what stands under each number, then upward what stands beside it.
ghost use Rattle.std.specs.Prelude.{◌+◌, ◌<◌, ◌≤◌, length};
ghost use Rattle.rows.specs.Sets.{Is};
ghost use Rattle.rows.specs.Rows.{On, Holds, Made};
ghost use Rattle.rows.specs.Steps.{Leads, Star, Then};
ghost use Rattle.spread.specs.Apart.{BesideBy, Under, UnderArms, Apart};
ghost use Rattle.spread.specs.Handed.{HandedUp, UnderFrom, ArmsFrom};

use rows::led::row_before;
use rows::row::{put, row};
use rows::set::Set;
use rows::whole::clear;

// The row that the column leads to b from, if it does, takes in the set.
fn hand_up<const W: usize>(column: &[u8], m: &mut [[u64; W]], n: usize, b: usize, set: &Set<W>)
    requires { (b < n) × (n ≤ length column.now) × (n ≤ length m.old) }
    ensures { Made W n (HandedUp W column.now m.old b set.now) m.old m.new }
{
    let v = column[b] as usize;
    if v < b {
        let joined = row(m, v).or(*set);
        put(m, v, joined);
    }
}

// Row b of below is completed by what x relates to b, and handed up.
fn down_row<const W: usize>(
    parent: &[u8],
    arm: &[u8],
    x: &[[u64; W]],
    below: &mut [[u64; W]],
    arms: &mut [[u64; W]],
    n: usize,
    b: usize,
)
    requires low { b < n }
    requires columns { (n ≤ length parent.now) × (n ≤ length arm.now) }
    requires rows { (n ≤ length x.now) × (n ≤ length below.old) × (n ≤ length arms.old) }
    requires under { Holds W n (UnderFrom n parent.now (b + 1) (On W x.now)) below.old }
    requires under_arms { Holds W n (ArmsFrom n parent.now (b + 1) arm.now (On W x.now)) arms.old }
    ensures under { Made W n (UnderFrom n parent.now b (On W x.now)) below.old below.new }
    ensures under_arms { Made W n (ArmsFrom n parent.now b arm.now (On W x.now)) arms.old arms.new }
{
    let under = row(below, b).or(row(x, b));
    hand_up(parent, below, n, b, &under);
    hand_up(arm, arms, n, b, &under);
    put(below, b, under);
}

// What x relates to something at or below each number; what of that is so for an arm of each.
fn downward<const W: usize>(
    parent: &[u8],
    arm: &[u8],
    x: &[[u64; W]],
    below: &mut [[u64; W]],
    arms: &mut [[u64; W]],
    n: usize,
)
    requires { (W ≤ 4) × (n ≤ length parent.now) × (n ≤ length arm.now) × (n ≤ length x.now) × (n ≤ length below.old) × (n ≤ length arms.old) }
    ensures under { Made W n (Under n parent.now (On W x.now)) below.old below.new }
    ensures under_arms { Made W n (UnderArms n parent.now arm.now (On W x.now)) arms.old arms.new }
{
    clear(below, n);
    clear(arms, n);
    for b in (0..n).rev() {
        down_row(parent, arm, x, below, arms, n, b);
    }
}

// What stands under another arm than b.
fn beside<const W: usize>(arm: &[u8], below: &[[u64; W]], arms: &[[u64; W]], b: usize) -> Set<W>
    requires { (b < length arm.now) × (b < length below.now) × (b < length arms.now) }
    ensures { Is result (λ a. BesideBy arm.now (On W below.now) (On W arms.now) a b) }
{
    row_before(arm, arms, b).without(row(below, b))
}

// That, at each number or above it.
fn upward<const W: usize>(
    parent: &[u8],
    arm: &[u8],
    below: &[[u64; W]],
    arms: &[[u64; W]],
    out: &mut [[u64; W]],
    n: usize,
)
    requires { (n ≤ length parent.now) × (n ≤ length arm.now) × (n ≤ length below.now) × (n ≤ length arms.now) × (n ≤ length out.old) }
    ensures { Made W n (Then (BesideBy arm.now (On W below.now) (On W arms.now)) (Star (Leads parent.now))) out.old out.new }
{
    for b in 0..n {
        let here = beside(arm, below, arms, b);
        let above = row_before(parent, out, b);
        put(out, b, here.or(above));
    }
}

// What x relates to something under another arm, of a branch at or above each number; below and arms are room to work in.
pub fn apart<const W: usize>(
    parent: &[u8],
    arm: &[u8],
    x: &[[u64; W]],
    below: &mut [[u64; W]],
    arms: &mut [[u64; W]],
    out: &mut [[u64; W]],
    n: usize,
)
    requires { (W ≤ 4) × (n ≤ length parent.now) × (n ≤ length arm.now) × (n ≤ length x.now) × (n ≤ length below.old) × (n ≤ length arms.old) × (n ≤ length out.old) }
    ensures { Made W n (Under n parent.now (On W x.now)) below.old below.new × Made W n (UnderArms n parent.now arm.now (On W x.now)) arms.old arms.new × Made W n (Apart n parent.now arm.now (On W x.now)) out.old out.new }
{
    downward(parent, arm, x, below, arms, n);
    upward(parent, arm, below, arms, out, n);
}
