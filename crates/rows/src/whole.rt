// Whole matrices: emptied, copied, and made of a column.
ghost use Rattle.std.specs.Prelude.{◌≡◌, ℕ, ◌*◌, ◌<◌, ◌≤◌, length, get_or};
ghost use Rattle.laws.specs.Says.{Says};
ghost use Rattle.rows.specs.Sets.{Is};
ghost use Rattle.rows.specs.Rows.{On, Cell, Made};

use crate::row::add;
use crate::set::Set;

// The first h rows become empty.
pub fn clear<const W: usize>(m: &mut [[u64; W]], h: usize)
    requires { (W ≤ 4) × (h ≤ length m.old) }
    ensures { Made W h (λ a b. ⊥) m.old m.new }
{
    m[..h].fill([0; W]);
}

// The same relation in another matrix.
pub fn copy<const W: usize>(m: &[[u64; W]], out: &mut [[u64; W]], n: usize)
    requires { (n ≤ length m.now) × (n ≤ length out.old) }
    ensures { Made W n (On W m.now) out.old out.new }
{
    out[..n].copy_from_slice(&m[..n]);
}

// Each number is related to itself alone.
pub fn each_itself<const W: usize>(out: &mut [[u64; W]], n: usize)
    requires { (W ≤ 4) × (n ≤ 64 * W) × (n ≤ length out.old) }
    ensures { Made W n ◌≡◌ out.old out.new }
{
    clear(out, n);
    for b in 0..n {
        add(out, b, b);
    }
}

// Row l becomes the numbers for which the column says l.
pub fn sorted<const W: usize>(column: &[u8], out: &mut [[u64; W]], n: usize, h: usize)
    requires { (W ≤ 4) × (n ≤ 64 * W) × (n ≤ length column.now) × (h ≤ length out.old) }
    ensures { Made W h (λ a l. (a < n) × (get_or column.now a 0 ≡ l)) out.old out.new }
{
    clear(out, h);
    for a in 0..n {
        let l = column[a] as usize;
        if l < h {
            add(out, a, l);
        }
    }
}

// All that any of the first n rows has.
pub fn joined<const W: usize>(m: &[[u64; W]], n: usize) -> Set<W>
    requires { n ≤ length m.now }
    ensures { Is result (λ a. (b : ℕ) × Cell W n m.now a b) }
{
    let mut all = Set::nothing();
    for &words in &m[..n] {
        all = all.or(Set { words });
    }
    all
}

// Whether any row has a number.
pub fn relates_any<const W: usize>(m: &[[u64; W]], n: usize) -> bool
    requires { n ≤ length m.now }
    ensures { Says result ((b : ℕ) × ((a : ℕ) × ((b < n) × On W m.now a b))) }
{
    !joined(m, n).is_empty()
}
