// A relation and then one or more steps: each row from the rows of the numbers that step to it.
ghost use Rattle.std.specs.Prelude.{◌⊎◌, ◌*◌, ◌<◌, ◌≤◌, length};
ghost use Rattle.laws.specs.Steps.{Plus};
ghost use Rattle.rows.specs.Rows.{On, MadeRow, Made};
ghost use Rattle.rows.specs.Steps.{Leads, ByEither, Then};

use rows::led::{from_either, row_before};
use rows::row::{add, put};

// Row b takes in the number that the column leads to b from, if it does.
fn add_led<const W: usize>(column: &[u8], out: &mut [[u64; W]], b: usize)
    requires { (b ≤ 64 * W) × (b < length column.now) × (b < length out.old) }
    ensures { MadeRow W b (λ a. On W out.old a b ⊎ Leads column.now a b) out.old out.new }
{
    let v = column[b] as usize;
    if v < b {
        add(out, v, b);
    }
}

// x, then one or more steps by either column.
pub fn onward<const W: usize>(
    first: &[u8],
    second: &[u8],
    x: &[[u64; W]],
    out: &mut [[u64; W]],
    n: usize,
)
    requires { (n ≤ length first.now) × (n ≤ length second.now) × (n ≤ length x.now) × (n ≤ length out.old) }
    ensures { Made W n (Then (On W x.now) (Plus (ByEither first.now second.now))) out.old out.new }
{
    for b in 0..n {
        let one = from_either(first, second, x, b);
        let more = from_either(first, second, out, b);
        put(out, b, one.or(more));
    }
}

// One or more steps by either column.
pub fn before<const W: usize>(first: &[u8], second: &[u8], out: &mut [[u64; W]], n: usize)
    requires { (n ≤ 64 * W) × (n ≤ length first.now) × (n ≤ length second.now) × (n ≤ length out.old) }
    ensures { Made W n (Plus (ByEither first.now second.now)) out.old out.new }
{
    for b in 0..n {
        let earlier = from_either(first, second, out, b);
        put(out, b, earlier);
        add_led(first, out, b);
        add_led(second, out, b);
    }
}

// One or more steps by the column.
pub fn along<const W: usize>(column: &[u8], out: &mut [[u64; W]], n: usize)
    requires { (n ≤ 64 * W) × (n ≤ length column.now) × (n ≤ length out.old) }
    ensures { Made W n (Plus (Leads column.now)) out.old out.new }
{
    for b in 0..n {
        let more = row_before(column, out, b);
        put(out, b, more);
        add_led(column, out, b);
    }
}
