// Whether a column leads from one number to two.
ghost use Rattle.std.specs.Prelude.{◌≤◌, length};
ghost use Rattle.laws.specs.Says.{Says};
ghost use Rattle.spread.specs.Apart.{Forks};

use rows::set::Set;

// `seen` has the numbers that the column leads from to numbers below b.
pub fn forks(column: &[u8], n: usize) -> bool
    requires { n ≤ length column.now }
    ensures { Says result (Forks n column.now) }
{
    let mut seen = Set::<4>::nothing();
    for b in 0..n {
        let v = column[b] as usize;
        if v < b {
            if seen.has(v) {
                return true;
            }
            seen.add(v);
        }
    }
    false
}
