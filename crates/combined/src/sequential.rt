// The steps among SC records.
ghost use Rattle.std.specs.Prelude.{◌⊎◌, ◌*◌, ◌<◌, ◌≤◌, length, get_or};
ghost use Rattle.rows.specs.Sets.{Is};
ghost use Rattle.rows.specs.Rows.{On, Holds, MadeRow, Made};
ghost use Rattle.combined.specs.Columns.{Placed};
ghost use Rattle.combined.specs.Sequential.{Elsewhere, Turned, StepsBy, Among};

use crate::others::put_others;
use rows::row::{put, row};
use rows::set::Set;

// Of what po relates, what stands at another place.
pub fn elsewhere<const W: usize>(
    place: &[u8],
    po: &[[u64; W]],
    at: &[[u64; W]],
    out: &mut [[u64; W]],
    n: usize,
)
    requires placed { Placed n place.now }
    requires rows { (n ≤ length po.now) × (33 ≤ length at.now) × (n ≤ length out.old) }
    ensures { Made W n (Elsewhere place.now (On W po.now) (On W at.now)) out.old out.new }
{
    for b in 0..n {
        put(out, b, row(po, b).without(row(at, place[b] as usize)));
    }
}

// Row b: as its parent's, where both stand at one place; else what is elsewhere before b, or comes around to its parent.
fn turn<const W: usize>(
    parent: &[u8],
    place: &[u8],
    elsewhere: &[[u64; W]],
    around: &[[u64; W]],
    out: &[[u64; W]],
    b: usize,
) -> Set<W>
    requires columns { (b < length parent.now) × (b < length place.now) }
    requires rows { (b < length elsewhere.now) × (b < length around.now) × (b < length out.now) }
    requires held { Holds W b (Turned parent.now place.now (On W elsewhere.now) (On W around.now)) out.now }
    ensures { Is result (λ a. Turned parent.now place.now (On W elsewhere.now) (On W around.now) a b) }
{
    let p = parent[b] as usize;
    if p < b {
        if (place[p] == place[b]) & (place[b] < 32) {
            return row(out, p);
        }
        return row(elsewhere, b).or(row(around, p));
    }
    Set::nothing()
}

pub fn detours<const W: usize>(
    parent: &[u8],
    place: &[u8],
    elsewhere: &[[u64; W]],
    around: &[[u64; W]],
    out: &mut [[u64; W]],
    n: usize,
)
    requires columns { (n ≤ length parent.now) × (n ≤ length place.now) }
    requires rows { (n ≤ length elsewhere.now) × (n ≤ length around.now) × (n ≤ length out.old) }
    ensures { Made W n (Turned parent.now place.now (On W elsewhere.now) (On W around.now)) out.old out.new }
{
    for b in 0..n {
        let turned = turn(parent, place, elsewhere, around, out, b);
        put(out, b, turned);
    }
}

// What steps to b among SC records, where row b of `others` has what is over b, but for b itself.
fn steps_from<const W: usize>(
    place: &[u8],
    orders: &[[u64; W]],
    at: &[[u64; W]],
    hb: &[[u64; W]],
    detour: &[[u64; W]],
    wb: &[[u64; W]],
    others: &[[u64; W]],
    b: usize,
) -> Set<W>
    requires placed { (b < length place.now) × (get_or place.now b 0 < length at.now) }
    requires rows { (4 < length orders.now) × (b < length hb.now) × (b < length detour.now) × (b < length wb.now) × (b < length others.now) }
    ensures { Is result (λ a. ((On W others.now a b ⊎ On W wb.now a b) ⊎ (On W detour.now a b ⊎ (On W hb.now a b × On W at.now a (get_or place.now b 0)))) × On W orders.now a 4) }
{
    let by_writes = row(others, b).or(row(wb, b));
    let at_one_place = row(hb, b).and(row(at, place[b] as usize));
    let steps = by_writes.or(row(detour, b).or(at_one_place));
    steps.and(row(orders, 4))
}

// Row b, of an SC record.
fn steps_to<const W: usize>(
    place: &[u8],
    orders: &[[u64; W]],
    at: &[[u64; W]],
    hb: &[[u64; W]],
    detour: &[[u64; W]],
    wb: &[[u64; W]],
    over: &[[u64; W]],
    out: &mut [[u64; W]],
    b: usize,
)
    requires placed { (b < 64 * W) × (b < length place.now) × (get_or place.now b 0 < length at.now) }
    requires rows { (4 < length orders.now) × (b < length hb.now) × (b < length detour.now) × (b < length wb.now) × (b < length over.now) × (b < length out.old) }
    ensures { MadeRow W b (λ a. On W orders.now a 4 × StepsBy place.now (On W at.now) (On W hb.now) (On W detour.now) (On W wb.now) (On W over.now) a b) out.old out.new }
{
    put_others(out, b, row(over, b));
    let steps = steps_from(place, orders, at, hb, detour, wb, out, b);
    put(out, b, steps);
}

// Row 4 of `orders` has the SC records.
pub fn among<const W: usize>(
    order: &[u8],
    place: &[u8],
    orders: &[[u64; W]],
    at: &[[u64; W]],
    hb: &[[u64; W]],
    detour: &[[u64; W]],
    wb: &[[u64; W]],
    over: &[[u64; W]],
    out: &mut [[u64; W]],
    n: usize,
)
    requires columns { (n ≤ 64 * W) × (n ≤ length order.now) }
    requires placed { Placed n place.now }
    requires rows { (4 < length orders.now) × (33 ≤ length at.now) × (n ≤ length hb.now) × (n ≤ length detour.now) × (n ≤ length wb.now) × (n ≤ length over.now) × (n ≤ length out.old) }
    ensures { Made W n (Among order.now place.now (On W orders.now) (On W at.now) (On W hb.now) (On W detour.now) (On W wb.now) (On W over.now)) out.old out.new }
{
    for b in 0..n {
        if order[b] == 4 {
            steps_to(place, orders, at, hb, detour, wb, over, out, b);
        } else {
            put(out, b, Set::nothing());
        }
    }
}
