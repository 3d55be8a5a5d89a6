// One or more steps, in place (Warshall), where steps stay within classes: of each number only the rows of its class are looked at.
ghost use Rattle.std.specs.Prelude.{◌≡◌, ◌⊎◌, ◌<◌, ◌≤◌, length, get_or};
ghost use Rattle.laws.specs.Steps.{Plus};
ghost use Rattle.rows.specs.Rows.{On, Cell, Room, MadeRow, Made};
ghost use Rattle.rows.specs.Steps.{Then};
ghost use Rattle.closure.specs.Classes.{InClasses};

use rows::row::{has, put, row};
use rows::set::Set;

// Steps by way of k: each row of k's class that has k takes in row k.
fn close_through<const W: usize>(
    class: &[u8],
    members: &[[u64; W]],
    m: &mut [[u64; W]],
    n: usize,
    h: usize,
    k: usize,
)
    requires { (k < n) × InClasses W n h class.now members.now m.old }
    ensures { Made W n (λ a b. Cell W n m.old a b ⊎ (Cell W n m.old a k × Cell W n m.old k b)) m.old m.new }
{
    let via = &row(m, k);
    let c = class[k] as usize;
    for b in row(members, c).below(n) {
        if has(m, k, b) {
            let joined = row(m, b).or(*via);
            put(m, b, joined);
        }
    }
}

// The same; where nothing leads to k there is nothing to do.
fn close_stage<const W: usize>(
    class: &[u8],
    members: &[[u64; W]],
    m: &mut [[u64; W]],
    n: usize,
    h: usize,
    k: usize,
)
    requires { (k < n) × InClasses W n h class.now members.now m.old }
    ensures { Made W n (λ a b. Cell W n m.old a b ⊎ (Cell W n m.old a k × Cell W n m.old k b)) m.old m.new }
{
    if row(m, k).is_empty() {
        return;
    }
    close_through(class, members, m, n, h, k);
}

// One or more steps of what m held. Row c of `members` has the numbers of class c, and a step leads to a number of the same class.
pub fn close<const W: usize>(
    class: &[u8],
    members: &[[u64; W]],
    m: &mut [[u64; W]],
    n: usize,
    h: usize,
)
    requires { InClasses W n h class.now members.now m.old }
    ensures { Made W n (Plus (Cell W n m.old)) m.old m.new }
{
    for k in 0..n {
        close_stage(class, members, m, n, h, k);
    }
}

// Row b of out: what x relates to a number that row b of m has.
fn gather_row<const W: usize>(
    x: &[[u64; W]],
    m: &[[u64; W]],
    out: &mut [[u64; W]],
    n: usize,
    b: usize,
)
    requires { (b < n) × Room W n n x.now × Room W n n m.now × Room W n n out.old }
    ensures { MadeRow W b (λ a. Then (Cell W n x.now) (On W m.now) a b) out.old out.new }
{
    let mut all = Set::nothing();
    for v in row(m, b).below(n) {
        all = all.or(row(x, v));
    }
    put(out, b, all);
}

// What x relates to a number that m relates to b, for each b to which the column gives this code; nothing for others.
pub fn gather<const W: usize>(
    column: &[u8],
    code: u8,
    x: &[[u64; W]],
    m: &[[u64; W]],
    out: &mut [[u64; W]],
    n: usize,
)
    requires { (n ≤ length column.now) × Room W n n x.now × Room W n n m.now × Room W n n out.old }
    ensures { Made W n (λ a b. (get_or column.now b 0 ≡ code) × Then (Cell W n x.now) (On W m.now) a b) out.old out.new }
{
    for b in 0..n {
        if column[b] == code {
            gather_row(x, m, out, n, b);
        } else {
            put(out, b, Set::nothing());
        }
    }
}
