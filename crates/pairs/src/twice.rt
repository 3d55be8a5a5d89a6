// Whether two took from one source at all: where none did, no rows need be laid.
ghost use Rattle.std.specs.Prelude.{◌≤◌, length};
ghost use Rattle.laws.specs.Says.{Says};
ghost use Rattle.pairs.specs.Tokens.{TakenTwice};

use rows::set::Set;

// `seen` has the sources that the numbers below q took from.
pub fn taken_twice(kind: &[u8], source: &[u8], n: usize) -> bool
    requires { (n ≤ length kind.now) × (n ≤ length source.now) × (n ≤ 256) }
    ensures { Says result (TakenTwice n kind.now source.now) }
{
    let mut seen = Set::<4>::nothing();
    for q in 0..n {
        let s = source[q] as usize;
        if (kind[q] == 3) & (s < q) {
            if seen.has(s) {
                return true;
            }
            seen.add(s);
        }
    }
    false
}
