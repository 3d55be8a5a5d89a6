// Rows of a matrix. Row b is the set of the numbers that are related to b.
ghost use Rattle.std.specs.Prelude.{◌⊎◌, ◌≡◌, ◌*◌, ◌<◌, length};
ghost use Rattle.laws.specs.Says.{Says};
ghost use Rattle.rows.specs.Sets.{In, Is};
ghost use Rattle.rows.specs.Rows.{On, MadeRow};

use crate::bits::{let_go, take_in};
use crate::set::Set;

// Row b.
pub fn row<const W: usize>(m: &[[u64; W]], b: usize) -> Set<W>
    requires { b < length m.now }
    ensures { Is result (λ a. On W m.now a b) }
{
    Set { words: m[b] }
}

// Row b becomes this set.
pub fn put<const W: usize>(m: &mut [[u64; W]], b: usize, set: Set<W>)
    requires { b < length m.old }
    ensures { MadeRow W b (In set.entry) m.old m.new }
{
    let words = set.words;
    m[b] = words;
}

// Whether row b has a.
pub fn has<const W: usize>(m: &[[u64; W]], a: usize, b: usize) -> bool
    requires { (a < 64 * W) × (b < length m.now) }
    ensures { Says result (On W m.now a b) }
{
    (m[b][a / 64] >> (a % 64)) % 2 == 1
}

// Row b takes in a.
pub fn add<const W: usize>(m: &mut [[u64; W]], a: usize, b: usize)
    requires { (a < 64 * W) × (b < length m.old) }
    ensures { MadeRow W b (λ x. On W m.old x b ⊎ (x ≡ a)) m.old m.new }
{
    take_in(&mut m[b], a);
}

// Row b loses a.
pub fn drop<const W: usize>(m: &mut [[u64; W]], a: usize, b: usize)
    requires { (a < 64 * W) × (b < length m.old) }
    ensures { MadeRow W b (λ x. On W m.old x b × (¬ (x ≡ a))) m.old m.new }
{
    let_go(&mut m[b], a);
}
