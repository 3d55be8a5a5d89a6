// Rows of the numbers that columns lead from.
ghost use Rattle.std.specs.Prelude.{◌<◌, length};
ghost use Rattle.rows.specs.Sets.{Is};
ghost use Rattle.rows.specs.Rows.{On};
ghost use Rattle.rows.specs.Steps.{Leads, ByEither, Then};

use crate::row::row;
use crate::set::Set;

// The row of m that the column leads to b from, if it does.
pub fn row_before<const W: usize>(column: &[u8], m: &[[u64; W]], b: usize) -> Set<W>
    requires { (b < length column.now) × (b < length m.now) }
    ensures { Is result (λ a. Then (On W m.now) (Leads column.now) a b) }
{
    let v = column[b] as usize;
    if v < b { row(m, v) } else { Set::nothing() }
}

// What m relates to a number that one of the two columns leads to b from.
pub fn from_either<const W: usize>(first: &[u8], second: &[u8], m: &[[u64; W]], b: usize) -> Set<W>
    requires { (b < length first.now) × (b < length second.now) × (b < length m.now) }
    ensures { Is result (λ a. Then (On W m.now) (ByEither first.now second.now) a b) }
{
    row_before(first, m, b).or(row_before(second, m, b))
}
