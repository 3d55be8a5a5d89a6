// Rows of pairs, from columns and from rows of relations. Row q has the first numbers of the pairs (p, q).
ghost use Rattle.std.specs.Prelude.{◌+◌, ◌<◌, ◌≤◌, length, get_or};
ghost use Rattle.rows.specs.Sets.{Is};
ghost use Rattle.rows.specs.Rows.{On, Holds, Room, Made};
ghost use Rattle.rows.specs.Steps.{Leads, Then};
ghost use Rattle.pairs.specs.Tokens.{Taken, TwoTaken, TakenWith, TakerRoom};

use rows::led::row_before;
use rows::row::{add, put, row};
use rows::set::Set;
use rows::whole::clear;

// What both relate.
pub fn meet<const W: usize>(x: &[[u64; W]], y: &[[u64; W]], out: &mut [[u64; W]], n: usize)
    requires { Room W n n x.now × Room W n n y.now × Room W n n out.old }
    ensures { Made W n (λ p q. On W x.now p q × On W y.now p q) out.old out.new }
{
    for q in 0..n {
        put(out, q, row(x, q).and(row(y, q)));
    }
}

// What x relates to q, and y to the number that the column leads to q from.
pub fn meet_led<const W: usize>(
    column: &[u8],
    x: &[[u64; W]],
    y: &[[u64; W]],
    out: &mut [[u64; W]],
    n: usize,
)
    requires { (n ≤ length column.now) × Room W n n x.now × Room W n n y.now × Room W n n out.old }
    ensures { Made W n (λ p q. On W x.now p q × Then (On W y.now) (Leads column.now) p q) out.old out.new }
{
    for q in 0..n {
        put(out, q, row(x, q).and(row_before(column, y, q)));
    }
}

// Row q of x, if the column gives q at least this code.
fn code_row<const W: usize>(column: &[u8], least: u8, x: &[[u64; W]], n: usize, q: usize) -> Set<W>
    requires { (q < n) × (n ≤ length column.now) × Room W n n x.now }
    ensures { Is result (λ p. (least ≤ get_or column.now q 0) × On W x.now p q) }
{
    if least <= column[q] {
        return row(x, q);
    }
    Set::nothing()
}

// The rows of numbers to which the column gives at least this code, and no others.
pub fn of_codes<const W: usize>(
    column: &[u8],
    least: u8,
    x: &[[u64; W]],
    out: &mut [[u64; W]],
    n: usize,
)
    requires { (n ≤ length column.now) × Room W n n x.now × Room W n n out.old }
    ensures { Made W n (λ p q. (least ≤ get_or column.now q 0) × On W x.now p q) out.old out.new }
{
    for q in 0..n {
        put(out, q, code_row(column, least, x, n, q));
    }
}

// Row q, from the numbers before q that took from each: those that took from q's source, but for what the matrix relates to q.
fn token_row<const W: usize>(
    kind: &[u8],
    source: &[u8],
    apart: &[[u64; W]],
    takers: &[[u64; W]],
    n: usize,
    q: usize,
) -> Set<W>
    requires { (q < n) × TakerRoom W n kind.now source.now takers.now × Room W n n apart.now }
    ensures { Is result (λ p. TakenWith kind.now source.now (On W takers.now) (On W apart.now) p q) }
{
    if kind[q] == 3 {
        return row_before(source, takers, q).without(row(apart, q));
    }
    Set::nothing()
}

// q takes from its source, if it has the kind 3 and a source.
fn note_taker<const W: usize>(
    kind: &[u8],
    source: &[u8],
    takers: &mut [[u64; W]],
    n: usize,
    q: usize,
)
    requires { (q < n) × TakerRoom W n kind.now source.now takers.old × Holds W n (Taken q kind.now source.now) takers.old }
    ensures { Made W n (Taken (q + 1) kind.now source.now) takers.old takers.new }
{
    let s = source[q] as usize;
    if (kind[q] == 3) & (s < q) {
        add(takers, q, s);
    }
}

// Two numbers of the kind 3 with one source, the earlier first, that the matrix does not relate. In the end `takers` has those of each source.
pub fn tokens<const W: usize>(
    kind: &[u8],
    source: &[u8],
    apart: &[[u64; W]],
    takers: &mut [[u64; W]],
    out: &mut [[u64; W]],
    n: usize,
)
    requires { TakerRoom W n kind.now source.now takers.old × Room W n n apart.now × Room W n n out.old }
    ensures { Made W n (Taken n kind.now source.now) takers.old takers.new × Made W n (TwoTaken kind.now source.now (On W apart.now)) out.old out.new }
{
    clear(takers, n);
    for q in 0..n {
        let taken = token_row(kind, source, apart, takers, n, q);
        put(out, q, taken);
        note_taker(kind, source, takers, n, q);
    }
}
