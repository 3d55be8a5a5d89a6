// A4: the least cycle of the steps among SC records.
ghost use Rattle.laws.specs.Says.{Says};
ghost use Rattle.findings.specs.declared.Finding.TheVariants.{A4};
ghost use Rattle.findings.specs.Meant.{FindsIn};
ghost use Rattle.model.specs.Table.{Table, Source};
ghost use Rattle.model.specs.Relations.{Wb0};
ghost use Rattle.model.specs.Findings.{Shows};
ghost use Rattle.rows.specs.Rows.{Holds, Made};
ghost use Rattle.cycle.specs.Rounds.{GoesBack};
ghost use Rattle.columns.specs.Columns.{parent_number, sync_number, place_number, Column, Known};
ghost use Rattle.columns.specs.Sequential.{StandsAt, Detour};
ghost use Rattle.seeking.specs.Sequential.{ClosingRoom, Closed, TurningRoom, ScRoom, Sequenced};

use closure::by_stages::{close, gather};
use closure::rising::rise;
use columns::View;
use combined::sequential::{among, detours, elsewhere};
use cycle::{goes_back, least_cycle};
use findings::Found;
use rows::row::{put, row};
use rows::set::Set;
use rows::whole::{copy, sorted};
use spread::onward::{along, onward};

// wb, and for each SC record whom it overtakes: the readers of what is wb before it. `back` says whether a step of wb0 goes back in the table.
fn close_writes<const W: usize>(
    place: &[u8],
    order: &[u8],
    writes: &[[u64; W]],
    readers: &[[u64; W]],
    wb0: &[[u64; W]],
    back: bool,
    wb: &mut [[u64; W]],
    over: &mut [[u64; W]],
    n: usize,
)
    requires { ClosingRoom W n place.now order.now writes.now readers.now wb0.now wb.old over.old × Says back (GoesBack W n wb0.now) }
    ensures { (t : Table) → Known t n → Holds W n (λ a s. Source t s a) readers.now → Holds W n (Wb0 t) wb0.now → Closed t W n order.now wb.old over.old wb.new over.new }
{
    if back {
        copy(wb0, wb, n);
        close(place, writes, wb, n, 33);
        gather(order, 4, readers, wb, over, n);
    } else {
        let mut left = [[0u64; W]; 1];
        rise(wb0, readers, wb, over, &mut left, n);
    }
}

// Who stands at each place, and the detours: "po≠; or po≠, then hb, then po≠". `po`, `other` and `around` are room to work in.
fn turn_around<const W: usize>(
    of: View<'_>,
    at: &mut [[u64; W]],
    po: &mut [[u64; W]],
    other: &mut [[u64; W]],
    around: &mut [[u64; W]],
    detour: &mut [[u64; W]],
    n: usize,
)
    requires { TurningRoom W n of.parent.now of.sync.now of.place.now at.old po.old other.old around.old detour.old }
    ensures { (t : Table) → Known t n → Column n (parent_number t) of.entry.parent.now → Column n (sync_number t) of.entry.sync.now → Column n (place_number t) of.entry.place.now → Made W 33 (StandsAt n of.entry.place.now) at.old at.new × Made W n (Detour t) detour.old detour.new }
{
    sorted(of.place, at, n, 32);
    put(at, 32, Set::nothing());
    along(of.parent, po, n);
    elsewhere(of.place, po, at, other, n);
    onward(of.parent, of.sync, other, around, n);
    detours(of.parent, of.place, other, around, detour, n);
}

// A4: the least cycle, at the front of `out`. What is lent from `wb` to `detour` is room to work in.
pub fn find_sc_cycle<const W: usize>(
    of: View<'_>,
    hb: &[[u64; W]],
    writes: &[[u64; W]],
    readers: &[[u64; W]],
    wb0: &[[u64; W]],
    back: bool,
    wb: &mut [[u64; W]],
    over: &mut [[u64; W]],
    at: &mut [[u64; W]],
    po: &mut [[u64; W]],
    other: &mut [[u64; W]],
    around: &mut [[u64; W]],
    detour: &mut [[u64; W]],
    out: &mut [u8],
    n: usize,
) -> Found
    requires { ScRoom W n of.parent.now of.sync.now of.place.now of.order.now hb.now writes.now readers.now wb0.now wb.old over.old at.old po.old other.old around.old detour.old out.old × Says back (GoesBack W n wb0.now) × ((t : Table) × Sequenced t W n of.parent.now of.sync.now of.place.now of.order.now hb.now writes.now readers.now wb0.now) }
    ensures { (t : Table) → Sequenced t W n of.entry.parent.now of.entry.sync.now of.entry.place.now of.entry.order.now hb.now writes.now readers.now wb0.now → FindsIn (Shows t A4) out.old out.new result }
{
    let mut orders = [[0u64; W]; 5];
    sorted(of.order, &mut orders, n, 5);
    if row(&orders, 4).is_empty() {
        return Found::Nothing;
    }
    close_writes(of.place, of.order, writes, readers, wb0, back, wb, over, n);
    turn_around(of, at, po, other, around, detour, n);
    among(of.order, of.place, &orders, at, hb, detour, wb, over, po, n);
    let back_again = goes_back(po, n);
    least_cycle(po, back_again, n, around, out)
}
