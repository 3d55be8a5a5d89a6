// R: the least read that is not justified.
ghost use Rattle.std.specs.Prelude.{List, ℕ, ◌<◌, ◌≤◌, length, get_or};
ghost use Rattle.laws.specs.Says.{Says};
ghost use Rattle.findings.specs.declared.Finding.TheVariants.{R};
ghost use Rattle.findings.specs.Meant.{Finds};
ghost use Rattle.model.specs.Table.{Table};
ghost use Rattle.model.specs.Findings.{ShowsR, Shows};
ghost use Rattle.model.specs.Relations.{Justified, StandsOnRace};
ghost use Rattle.rows.specs.Rows.{On, Room};
ghost use Rattle.combined.specs.Columns.{Placed};
ghost use Rattle.seeking.specs.Reads.{ReadRoom, Reading};

use columns::View;
use findings::Found;
use rows::row::{has, row};

// Whether some earlier write races with b.
fn is_raced<const W: usize>(race: &[[u64; W]], n: usize, b: usize) -> bool
    requires { (b < n) × Room W n n race.now }
    ensures { Says result ((a : ℕ) × On W race.now a b) }
{
    !row(race, b).is_empty()
}

// Whether some write of b's place is before b.
fn is_written<const W: usize>(
    place: &[u8],
    at: &[[u64; W]],
    hb: &[[u64; W]],
    n: usize,
    b: usize,
) -> bool
    requires { (b < n) × Placed n place.now × Room W n 33 at.now × Room W n n hb.now }
    ensures { Says result ((a : ℕ) × (On W hb.now a b × On W at.now a (get_or place.now b 0))) }
{
    !row(hb, b).and(row(at, place[b] as usize)).is_empty()
}

// "A read with a source is justified if its source is hb before it and no write earlier in the table races with it. A read without a source
// is justified if no write of its location is hb before it, or some earlier write races with it."
fn justified<const W: usize>(
    of: View<'_>,
    at: &[[u64; W]],
    hb: &[[u64; W]],
    race: &[[u64; W]],
    n: usize,
    b: usize,
) -> bool
    requires { (b < n) × ReadRoom W n of.source.now of.place.now at.now hb.now race.now }
    ensures { (t : Table) → (kind : List ℕ) → Reading t W n kind of.entry.source.now of.entry.place.now at.now hb.now race.now → Says result (Justified t b) }
{
    let raced = is_raced(race, n, b);
    let s = of.source[b] as usize;
    if s < b {
        return has(hb, s, b) & !raced;
    }
    !is_written(of.place, at, hb, n, b) | raced
}

// "It stands on a race if it has no source, some write of its location is hb before it, and some earlier write races with it"
pub fn stands_on_race<const W: usize>(
    of: View<'_>,
    at: &[[u64; W]],
    hb: &[[u64; W]],
    race: &[[u64; W]],
    n: usize,
    b: usize,
) -> bool
    requires { (b < n) × (n ≤ length of.kind.now) × ReadRoom W n of.source.now of.place.now at.now hb.now race.now }
    ensures { (t : Table) → Reading t W n of.entry.kind.now of.entry.source.now of.entry.place.now at.now hb.now race.now → Says result (StandsOnRace t b) }
{
    if (of.source[b] as usize) < b {
        return false;
    }
    (of.kind[b] % 2 == 1) & is_written(of.place, at, hb, n, b) & is_raced(race, n, b)
}

// R: "some read is not justified". A kind that reads is odd.
fn unjustified<const W: usize>(
    of: View<'_>,
    at: &[[u64; W]],
    hb: &[[u64; W]],
    race: &[[u64; W]],
    n: usize,
    b: usize,
) -> bool
    requires { (b < n) × (n ≤ length of.kind.now) × ReadRoom W n of.source.now of.place.now at.now hb.now race.now }
    ensures { (t : Table) → Reading t W n of.entry.kind.now of.entry.source.now of.entry.place.now at.now hb.now race.now → Says result (ShowsR t b) }
{
    (of.kind[b] % 2 == 1) & !justified(of, at, hb, race, n, b)
}

// The least such read.
pub fn find_read<const W: usize>(
    of: View<'_>,
    at: &[[u64; W]],
    hb: &[[u64; W]],
    race: &[[u64; W]],
    n: usize,
) -> Found
    requires { (n ≤ length of.kind.now) × ReadRoom W n of.source.now of.place.now at.now hb.now race.now }
    ensures { (t : Table) → Reading t W n of.entry.kind.now of.entry.source.now of.entry.place.now at.now hb.now race.now → Finds (Shows t R) result }
{
    for b in 0..n {
        if unjustified(of, at, hb, race, n, b) {
            return Found::Record(b);
        }
    }
    Found::Nothing
}
