// Steps from write to write: what owns something before a record is handed on to the record's own owners.
ghost use Rattle.std.specs.Prelude.{◌⊎◌, ◌≡◌, ◌*◌, ◌<◌, ◌≤◌, length};
ghost use Rattle.rows.specs.Sets.{In, Is};
ghost use Rattle.rows.specs.Rows.{On, MadeRow, Made};
ghost use Rattle.rows.specs.Steps.{ByEither, Star, Then};
ghost use Rattle.combined.specs.Writes.{Owning, HandedOn, NoneItself, Handed, HandingRoom};

use crate::others::put_others;
use rows::led::from_either;
use rows::row::{add, put, row};
use rows::set::Set;
use rows::whole::clear;

// Row `to` takes in the set, but for `to` itself.
fn take_others<const W: usize>(m: &mut [[u64; W]], to: usize, set: &Set<W>)
    requires { (to < 64 * W) × (to < length m.old) }
    ensures { MadeRow W to (λ a. (On W m.old a to ⊎ In set.now a) × (¬ (a ≡ to))) m.old m.new }
{
    let joined = row(m, to).or(*set);
    put_others(m, to, joined);
}

// Row b of owners is completed by b's own owners, and these take in the set.
fn hand_on<const W: usize>(
    kind: &[u8],
    source: &[u8],
    owners: &mut [[u64; W]],
    out: &mut [[u64; W]],
    n: usize,
    b: usize,
    set: &Set<W>,
)
    requires columns { (b < n) × (n ≤ length kind.now) × (n ≤ length source.now) }
    requires rows { (n ≤ 64 * W) × (n ≤ length owners.old) × (n ≤ length out.old) }
    requires none { NoneItself W n out.old }
    ensures { Handed W n b (λ o. Owning kind.now source.now o b) (In set.now) owners.old out.old owners.new out.new }
{
    if 2 <= kind[b] {
        add(owners, b, b);
        take_others(out, b, set);
    }
    let s = source[b] as usize;
    if s < b {
        add(owners, s, b);
        take_others(out, s, set);
    }
}

// What owns something that steps lead from to something that the row's number owns, at one place. In the end `owners` has what owns each
// number or something before it.
pub fn handed_on<const W: usize>(
    parent: &[u8],
    sync: &[u8],
    kind: &[u8],
    source: &[u8],
    place: &[u8],
    at: &[[u64; W]],
    owners: &mut [[u64; W]],
    out: &mut [[u64; W]],
    n: usize,
)
    requires { HandingRoom W n parent.now sync.now kind.now source.now place.now at.now owners.old out.old }
    ensures { Made W n (Then (Owning kind.now source.now) (Star (ByEither parent.now sync.now))) owners.old owners.new × Made W n (HandedOn n parent.now sync.now kind.now source.now place.now (On W at.now)) out.old out.new }
{
    clear(out, n);
    for b in 0..n {
        let before = from_either(parent, sync, owners, b);
        put(owners, b, before);
        let handed = row(owners, b).and(row(at, place[b] as usize));
        hand_on(kind, source, owners, out, n, b, &handed);
    }
}
