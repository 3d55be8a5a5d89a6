// The least pair that rows tell: "the search stops at the first pair that fits".
ghost use Rattle.std.specs.Prelude.{ℕ, ◌<◌};
ghost use Rattle.laws.specs.Witness.{PairWith};
ghost use Rattle.findings.specs.Meant.{Finds};
ghost use Rattle.rows.specs.Sets.{Is};
ghost use Rattle.rows.specs.Rows.{Cell, Room};

use findings::Found;
use rows::row::has;
use rows::set::Set;
use rows::whole::joined;

// The least pair (p, q) such that row q has p. `firsts` has what any row has: other numbers are passed over.
fn least_among<const W: usize>(m: &[[u64; W]], firsts: &Set<W>, n: usize) -> Found
    requires { Room W n n m.now × Is firsts.now (λ p. (q : ℕ) × Cell W n m.now p q) }
    ensures { Finds (PairWith (λ p q. (p < n) × Cell W n m.now p q)) result }
{
    for p in 0..n {
        if firsts.has(p) {
            for q in 0..n {
                if has(m, p, q) {
                    return Found::Pair(p, q);
                }
            }
        }
    }
    Found::Nothing
}

// The same, where it is not known what any row has.
pub fn least_pair<const W: usize>(m: &[[u64; W]], n: usize) -> Found
    requires { Room W n n m.now }
    ensures { Finds (PairWith (λ p q. (p < n) × Cell W n m.now p q)) result }
{
    let firsts = &joined(m, n);
    if firsts.is_empty() {
        return Found::Nothing;
    }
    least_among(m, firsts, n)
}
