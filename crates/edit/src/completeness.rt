// The least kept record that lacks its parent, its source or its racing write: refusal 10.
ghost use Rattle.std.specs.Prelude.{ℕ, ◌*◌, ◌<◌, ◌≤◌, T, length};
ghost use Rattle.laws.specs.Says.{Says};
ghost use Rattle.laws.specs.Least.{LeastNumber};
ghost use Rattle.model.specs.Table.{Table};
ghost use Rattle.model.specs.Relations.{StandsOnRace};
ghost use Rattle.rows.specs.Rows.{On, Room};
ghost use Rattle.rows.specs.Steps.{Leads};
ghost use Rattle.table.specs.Events.{events_of};
ghost use Rattle.facts.specs.Sound.{Counted};
ghost use Rattle.columns.specs.Columns.{Columns};
ghost use Rattle.seeking.specs.Reads.{ReadRoom, Reading};
ghost use Rattle.selections.specs.Selection.{named};
ghost use Rattle.edit.specs.Columns.{JudgingRoom, Judging};
ghost use Rattle.edit.specs.Cut.{RaceKept, Lacking};

use basis::lay;
use columns::View;
use limits::LIMIT;
use rows::row::row;
use seeking::reads::stands_on_race;
use selections::names;

// What the column leads to b from, if it does, is kept.
fn link_kept(selection: &[u8], column: &[u8], n: usize, b: usize) -> bool
    requires { (b < n) × (n ≤ 8 * length selection.now) × (n ≤ length column.now) }
    ensures { Says result ((a : ℕ) → Leads column.now a b → T (named selection.now a)) }
{
    let a = column[b] as usize;
    if a < b { names(selection, a) } else { true }
}

// One of the numbers of row b is kept.
fn any_kept<const W: usize>(selection: &[u8], race: &[[u64; W]], n: usize, b: usize) -> bool
    requires { (b < n) × (n ≤ 8 * length selection.now) × Room W n n race.now }
    ensures { Says result ((a : ℕ) × ((a < n) × (T (named selection.now a) × On W race.now a b))) }
{
    for a in row(race, b).below(n) {
        if names(selection, a) {
            return true;
        }
    }
    false
}

// Where b stands on a race, "one of those racing writes" is kept.
fn race_kept<const W: usize>(
    of: View<'_>,
    at: &[[u64; W]],
    hb: &[[u64; W]],
    race: &[[u64; W]],
    selection: &[u8],
    n: usize,
    b: usize,
) -> bool
    requires { (b < n) × (n ≤ 8 * length selection.now) × (n ≤ length of.kind.now) × ReadRoom W n of.source.now of.place.now at.now hb.now race.now }
    ensures { (t : Table) → Reading t W n of.entry.kind.now of.entry.source.now of.entry.place.now at.now hb.now race.now → Says result (StandsOnRace t b → RaceKept (named selection.now) t b) }
{
    !stands_on_race(of, at, hb, race, n, b) | any_kept(selection, race, n, b)
}

// A kept record that "lacks its parent, its source, or its racing write".
fn lacks<const W: usize>(
    of: View<'_>,
    at: &[[u64; W]],
    hb: &[[u64; W]],
    race: &[[u64; W]],
    selection: &[u8],
    n: usize,
    b: usize,
) -> bool
    requires { (b < n) × JudgingRoom W n of.parent.now of.kind.now of.source.now of.place.now at.now hb.now race.now selection.now }
    ensures { (t : Table) → Judging t W n of.entry.parent.now of.entry.kind.now of.entry.source.now of.entry.place.now at.now hb.now race.now → Says result (Lacking (named selection.now) t b) }
{
    let complete = link_kept(selection, of.parent, n, b)
        & link_kept(selection, of.source, n, b)
        & race_kept(of, at, hb, race, selection, n, b);
    names(selection, b) & !complete
}

// The least, by the rows of hb and of races.
fn least_lacking_by<const W: usize>(
    of: View<'_>,
    at: &[[u64; W]],
    hb: &[[u64; W]],
    race: &[[u64; W]],
    selection: &[u8],
    n: usize,
) -> Option<usize>
    requires { JudgingRoom W n of.parent.now of.kind.now of.source.now of.place.now at.now hb.now race.now selection.now }
    ensures { (t : Table) → Judging t W n of.entry.parent.now of.entry.kind.now of.entry.source.now of.entry.place.now at.now hb.now race.now → LeastNumber (Lacking (named selection.now) t) result }
{
    for b in 0..n {
        if lacks(of, at, hb, race, selection, n, b) {
            return Some(b);
        }
    }
    None
}

// "for 10 the least such kept record". The rows have four words, enough for every table; their rooms are made before the columns are read, so that
// they are cleared once (docs/DECISIONS.md, 88).
pub fn least_lacking(table: &[u8], selection: &[u8], count: usize) -> Option<usize>
    requires { Counted table.now count × (count ≤ 8 * length selection.now) }
    ensures { LeastNumber (Lacking (named selection.now) (events_of table.now)) result }
{
    let mut own = [[0u64; 4]; LIMIT];
    let mut below = [[0u64; 4]; LIMIT];
    let mut arms = [[0u64; 4]; LIMIT];
    let mut na = [[0u64; 4]; 1];
    let mut hb = [[0u64; 4]; LIMIT];
    let mut cf = [[0u64; 4]; LIMIT];
    let mut at = [[0u64; 4]; 33];
    let mut race = [[0u64; 4]; LIMIT];
    let fields = columns::read(table, count);
    let of = fields.view();
    lay(
        of, &mut own, &mut below, &mut arms, &mut na, &mut hb, &mut cf, &mut at, &mut race, count,
    );
    least_lacking_by(of, &at, &hb, &race, selection, count)
}
