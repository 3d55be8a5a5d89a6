// Races with earlier writes: the writes so far of a record's place, but for those that are before it or apart from it.
ghost use Rattle.std.specs.Prelude.{◌+◌, ◌*◌, ◌<◌, ◌≤◌, length, get_or};
ghost use Rattle.rows.specs.Sets.{Is};
ghost use Rattle.rows.specs.Rows.{On, Holds, Made};
ghost use Rattle.combined.specs.Columns.{Placed, WritesAt, OfOrder};
ghost use Rattle.combined.specs.Races.{RacesBefore, RacesFrom};

use rows::row::{add, put, row};
use rows::set::Set;
use rows::whole::clear;

// Row b, from the writes and the NA records before b.
fn race_row<const W: usize>(
    place: &[u8],
    order: &[u8],
    hb: &[[u64; W]],
    cf: &[[u64; W]],
    at: &[[u64; W]],
    na: &[[u64; W]],
    b: usize,
) -> Set<W>
    requires columns { (b < length place.now) × (b < length order.now) }
    requires rows { (b < length hb.now) × (b < length cf.now) × (get_or place.now b 0 < length at.now) × (0 < length na.now) }
    ensures { Is result (λ a. RacesFrom place.now order.now (On W at.now) (On W na.now) (On W hb.now) (On W cf.now) a b) }
{
    let here = row(at, place[b] as usize);
    let racing = here.without(row(hb, b)).without(row(cf, b));
    if order[b] == 0 {
        return racing;
    }
    racing.and(row(na, 0))
}

// To the writes below b of each place comes b, if it writes.
fn note_write<const W: usize>(place: &[u8], kind: &[u8], at: &mut [[u64; W]], b: usize)
    requires inside { (b < 64 * W) × (b < length place.now) × (b < length kind.now) × (get_or place.now b 0 < 33) × (33 ≤ length at.old) }
    requires held { Holds W 33 (WritesAt b kind.now place.now) at.old }
    ensures { Made W 33 (WritesAt (b + 1) kind.now place.now) at.old at.new }
{
    if 2 <= kind[b] {
        add(at, b, place[b] as usize);
    }
}

// To the NA records below b comes b, if it is NA.
fn note_na<const W: usize>(order: &[u8], na: &mut [[u64; W]], b: usize)
    requires inside { (b < 64 * W) × (b < length order.now) × (1 ≤ length na.old) }
    requires held { Holds W 1 (OfOrder b order.now) na.old }
    ensures { Made W 1 (OfOrder (b + 1) order.now) na.old na.new }
{
    if order[b] == 0 {
        add(na, b, 0);
    }
}

// Row b: the earlier writes that race with b. In the end `at` has the writes of each place, and `na` the NA records.
pub fn races<const W: usize>(
    place: &[u8],
    kind: &[u8],
    order: &[u8],
    hb: &[[u64; W]],
    cf: &[[u64; W]],
    at: &mut [[u64; W]],
    na: &mut [[u64; W]],
    out: &mut [[u64; W]],
    n: usize,
)
    requires width { (W ≤ 4) × (n ≤ 64 * W) }
    requires placed { Placed n place.now }
    requires columns { (n ≤ length kind.now) × (n ≤ length order.now) }
    requires rows { (n ≤ length hb.now) × (n ≤ length cf.now) × (33 ≤ length at.old) × (1 ≤ length na.old) × (n ≤ length out.old) }
    ensures { Made W 33 (WritesAt n kind.now place.now) at.old at.new × Made W 1 (OfOrder n order.now) na.old na.new × Made W n (RacesBefore place.now kind.now order.now (On W hb.now) (On W cf.now)) out.old out.new }
{
    clear(at, 33);
    clear(na, 1);
    for b in 0..n {
        let racing = race_row(place, order, hb, cf, at, na, b);
        put(out, b, racing);
        note_write(place, kind, at, b);
        note_na(order, na, b);
    }
}
