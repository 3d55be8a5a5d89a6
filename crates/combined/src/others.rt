// Rows but for their own numbers.
ghost use Rattle.std.specs.Prelude.{◌≡◌, ◌*◌, ◌<◌, length};
ghost use Rattle.rows.specs.Sets.{In};
ghost use Rattle.rows.specs.Rows.{MadeRow};

use rows::row::{drop, put};
use rows::set::Set;

// Row b becomes the set, but for b itself.
pub fn put_others<const W: usize>(m: &mut [[u64; W]], b: usize, set: Set<W>)
    requires { (b < 64 * W) × (b < length m.old) }
    ensures { MadeRow W b (λ a. In set.entry a × (¬ (a ≡ b))) m.old m.new }
{
    put(m, b, set);
    drop(m, b, b);
}
