// One or more steps of a relation whose steps all rise, each row from rows that are done: of the numbers that step to it the highest is taken
// first, and what that row has need not be taken again.
ghost use Rattle.std.specs.Prelude.{◌⊎◌, ◌≡◌, ◌<◌};
ghost use Rattle.laws.specs.Steps.{Plus};
ghost use Rattle.rows.specs.Rows.{On, Holds, Cell, Room, MadeRow, Made};
ghost use Rattle.rows.specs.Steps.{Then};
ghost use Rattle.closure.specs.Classes.{Rising};

use rows::row::{add, put, row};
use rows::search::last;
use rows::set::Set;
use rows::whole::clear;

// Rows b of out and of over take in those of v, v itself, and what x relates to v.
fn take_in<const W: usize>(
    x: &[[u64; W]],
    out: &mut [[u64; W]],
    over: &mut [[u64; W]],
    n: usize,
    v: usize,
    b: usize,
)
    requires { (v < b) × (b < n) × Room W n n x.now × Room W n n out.old × Room W n n over.old }
    ensures { MadeRow W b (λ a. (On W out.old a b ⊎ On W out.old a v) ⊎ (a ≡ v)) out.old out.new × MadeRow W b (λ a. (On W over.old a b ⊎ On W over.old a v) ⊎ On W x.now a v) over.old over.new }
{
    let led = row(over, b).or(row(over, v)).or(row(x, v));
    put(over, b, led);
    let steps = row(out, b).or(row(out, v));
    put(out, b, steps);
    add(out, v, b);
}

// Row b. `left` has the numbers that step to b and that row b of out does not have yet.
fn rise_row<const W: usize>(
    m: &[[u64; W]],
    x: &[[u64; W]],
    out: &mut [[u64; W]],
    over: &mut [[u64; W]],
    left: &mut [[u64; W]],
    n: usize,
    b: usize,
)
    requires { (b < n) × Rising W n m.now x.now out.old over.old left.old × Holds W b (Plus (Cell W n m.now)) out.old × Holds W b (Then (On W x.now) (Plus (Cell W n m.now))) over.old }
    ensures { MadeRow W b (λ a. Plus (Cell W n m.now) a b) out.old out.new × MadeRow W b (λ a. Then (On W x.now) (Plus (Cell W n m.now)) a b) over.old over.new × Made W 1 (λ a b. ⊥) left.old left.new }
{
    put(out, b, Set::nothing());
    put(over, b, Set::nothing());
    put(left, 0, row(m, b));
    let mut v = last(left, 0);
    while v < b {
        take_in(x, out, over, n, v, b);
        let rest = row(left, 0).without(row(out, b));
        put(left, 0, rest);
        v = last(left, 0);
    }
}

// out: one or more steps of m; over: x, and then one or more steps of m. `left` is room for one row.
pub fn rise<const W: usize>(
    m: &[[u64; W]],
    x: &[[u64; W]],
    out: &mut [[u64; W]],
    over: &mut [[u64; W]],
    left: &mut [[u64; W]],
    n: usize,
)
    requires { Rising W n m.now x.now out.old over.old left.old }
    ensures { Made W n (Plus (Cell W n m.now)) out.old out.new × Made W n (Then (On W x.now) (Plus (Cell W n m.now))) over.old over.new × Made W 1 (λ a b. ⊥) left.old left.new }
{
    // empty at the end even where there are no rows
    clear(left, 1);
    for b in 0..n {
        rise_row(m, x, out, over, left, n, b);
    }
}
