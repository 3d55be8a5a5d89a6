// The least witness of each finding of a sound table, searched for in rows of its relations.
ghost use Rattle.std.specs.Prelude.{◌*◌, ◌^◌, ◌<◌, ◌≤◌};
ghost use Rattle.model.specs.Table.{Table};
ghost use Rattle.rows.specs.Rows.{Room, Width};
ghost use Rattle.combined.specs.Writes.{HandingRoom};
ghost use Rattle.cycle.specs.Rounds.{OutRoom};
ghost use Rattle.table.specs.Events.{events_of};
ghost use Rattle.facts.specs.Sound.{Counted};
ghost use Rattle.seeking.specs.Pairs.{SourceRoom};
ghost use Rattle.seeking.specs.Sequential.{ScRoom};
ghost use Rattle.judge.specs.Answer.{Roomy};
ghost use Rattle.judge.specs.Rooms.{Rooms, Outs, Based, Conflicting, FoundInConflict, Rounding, FoundCycles};
ghost use Rattle.judge.specs.Parts.{FoundAll};

use basis::lay;
use columns::{View, read};
use cycle::goes_back;
use findings::{Findings, Found};
use limits::{LIMIT, MIDDLE, SMALL};
use rows::whole::{relates_any, sorted};
use seeking::pair::{
    find_before_in_conflict, find_racing_writes, find_sources_in_conflict, find_token_taken_twice,
};
use seeking::reads::find_read;
use seeking::sequential::find_sc_cycle;
use seeking::writes::{find_write_cycle, lay_writes};

// How many rows of places there are: one for each of 32, and one for none.
const PLACES: usize = 33;

// What was found of the findings that two records in conflict show.
#[derive(Drop)]
struct InConflict {
    a2: Found,
    a3: Found,
}

// What was found of the findings that a cycle shows.
#[derive(Drop)]
struct Cycles {
    a1: Found,
    a4: Found,
}

// A2 and A3. Where no records conflict there is nothing to be found. `below`, `arms`, `conflicting` and `shows` are room to work in.
fn find_in_conflict<const W: usize>(
    of: View<'_>,
    readers: &[[u64; W]],
    hb: &[[u64; W]],
    cf: &[[u64; W]],
    below: &mut [[u64; W]],
    arms: &mut [[u64; W]],
    conflicting: &mut [[u64; W]],
    shows: &mut [[u64; W]],
    n: usize,
) -> InConflict
    requires { SourceRoom W n of.parent.now of.arm.now of.source.now readers.now hb.now below.old arms.old conflicting.old shows.old × Room W n n cf.now }
    ensures { (t : Table) → Conflicting t W n of.entry.parent.now of.entry.arm.now of.entry.source.now readers.now hb.now cf.now → FoundInConflict t result }
{
    if relates_any(cf, n) {
        let a2 = find_before_in_conflict(hb, cf, shows, n);
        let a3 = find_sources_in_conflict(of, readers, hb, below, arms, conflicting, shows, n);
        InConflict { a2, a3 }
    } else {
        InConflict {
            a2: Found::Nothing,
            a3: Found::Nothing,
        }
    }
}

// A1 and A4: wb0, its least cycle, and that of the steps among SC records. What is lent from `owners` to `detour` is room to work in.
fn find_cycles<const W: usize>(
    of: View<'_>,
    hb: &[[u64; W]],
    writes: &[[u64; W]],
    readers: &[[u64; W]],
    owners: &mut [[u64; W]],
    wb0: &mut [[u64; W]],
    wb: &mut [[u64; W]],
    over: &mut [[u64; W]],
    at: &mut [[u64; W]],
    po: &mut [[u64; W]],
    other: &mut [[u64; W]],
    around: &mut [[u64; W]],
    detour: &mut [[u64; W]],
    first: &mut [u8],
    second: &mut [u8],
    n: usize,
) -> Cycles
    requires { HandingRoom W n of.parent.now of.sync.now of.kind.now of.source.now of.place.now writes.now owners.old wb0.old × ScRoom W n of.parent.now of.sync.now of.place.now of.order.now hb.now writes.now readers.now wb0.old wb.old over.old at.old po.old other.old around.old detour.old second.old × OutRoom n first.old × ((t : Table) × Rounding t W n of.parent.now of.sync.now of.kind.now of.source.now of.place.now of.order.now hb.now writes.now readers.now) }
    ensures { (t : Table) → Rounding t W n of.entry.parent.now of.entry.sync.now of.entry.kind.now of.entry.source.now of.entry.place.now of.entry.order.now hb.now writes.now readers.now → FoundCycles t first.old first.new second.old second.new result }
{
    lay_writes(of, writes, owners, wb0, n);
    let back = goes_back(wb0, n);
    let a1 = find_write_cycle(wb0, back, around, first, n);
    let a4 = find_sc_cycle(
        of, hb, writes, readers, wb0, back, wb, over, at, po, other, around, detour, second, // the cycle of A4
        n,
    );
    Cycles { a1, a4 }
}

// Each finding, from the columns and from what was laid. A room is lent again where what stands in it is no longer asked for.
fn find_each<const W: usize>(
    of: View<'_>,
    hb: &[[u64; W]],
    writes: &[[u64; W]],
    cf: &mut [[u64; W]],
    race: &mut [[u64; W]],
    own: &mut [[u64; W]],
    below: &mut [[u64; W]],
    arms: &mut [[u64; W]],
    readers: &mut [[u64; W]],
    shows: &mut [[u64; W]],
    owners: &mut [[u64; W]],
    wb0: &mut [[u64; W]],
    at: &mut [[u64; W]],
    first: &mut [u8],
    second: &mut [u8],
    n: usize,
) -> Findings
    requires { Rooms W n own.old hb.now cf.old below.old arms.old race.old readers.old shows.old owners.old wb0.old writes.now at.old × Outs n first.old second.old × ((t : Table) × Based t W n of.parent.now of.arm.now of.source.now of.sync.now of.place.now of.kind.now of.order.now hb.now cf.old writes.now race.old) }
    ensures { (t : Table) → Based t W n of.entry.parent.now of.entry.arm.now of.entry.source.now of.entry.sync.now of.entry.place.now of.entry.kind.now of.entry.order.now hb.now cf.old writes.now race.old → FoundAll t first.old first.new second.old second.new result }
{
    let r = find_read(of, writes, hb, race, n);
    let w = find_racing_writes(of.kind, race, shows, n);
    let a5 = find_token_taken_twice(of, cf, readers, shows, n);
    sorted(of.source, readers, n, n);
    let pairs = find_in_conflict(of, readers, hb, cf, below, arms, own, shows, n);
    let cycles = find_cycles(
        of, hb, writes, readers, owners, wb0, below, arms, at, own, race, shows, cf, first, second,
        n,
    );
    Findings {
        r,
        a1: cycles.a1,
        a2: pairs.a2,
        a3: pairs.a3,
        a4: cycles.a4,
        a5,
        w,
    }
}

// The same from the table's bytes, in room of its own: for each relation N rows of W words, a row more than there are records, for layers.
// The rooms are made before the columns are read: made after a call they would be cleared twice (docs/DECISIONS.md, 88).
fn find_within<const W: usize, const N: usize>(
    table: &[u8],
    n: usize,
    first: &mut [u8],
    second: &mut [u8],
) -> Findings
    requires lent { Counted table.now n × Roomy first.old second.old }
    requires width { Width W }
    requires wide { n ≤ 64 * W }
    requires rows { n < N }
    requires small { N * (W * 8) < 2 ^ 63 }
    ensures { FoundAll (events_of table.now) first.old first.new second.old second.new result }
{
    let mut own = [[0u64; W]; N];
    let mut hb = [[0u64; W]; N];
    let mut cf = [[0u64; W]; N];
    let mut below = [[0u64; W]; N];
    let mut arms = [[0u64; W]; N];
    let mut race = [[0u64; W]; N];
    let mut readers = [[0u64; W]; N];
    let mut shows = [[0u64; W]; N];
    let mut owners = [[0u64; W]; N];
    let mut wb0 = [[0u64; W]; N];
    let mut writes = [[0u64; W]; PLACES];
    let mut at = [[0u64; W]; PLACES];
    let mut na = [[0u64; W]; 1];
    let fields = read(table, n);
    let of = fields.view();
    lay(
        of,
        &mut own,
        &mut below,
        &mut arms,
        &mut na,
        &mut hb,
        &mut cf,
        &mut writes,
        &mut race,
        n,
    );
    find_each(
        of,
        &hb,
        &writes,
        &mut cf,
        &mut race,
        &mut own,
        &mut below,
        &mut arms,
        &mut readers,
        &mut shows,
        &mut owners,
        &mut wb0,
        &mut at,
        first,
        second,
        n,
    )
}

// How many rows a small table, a middling one and any other has room for: less is to be cleared for fewer records.
const SMALL_ROWS: usize = SMALL + 1;

const MIDDLE_ROWS: usize = MIDDLE + 1;

const ROWS: usize = LIMIT + 1;

// The same, with as much room as there are records, and as many words to a row.
pub fn find_all(table: &[u8], n: usize, first: &mut [u8], second: &mut [u8]) -> Findings
    requires { Counted table.now n × Roomy first.old second.old }
    ensures { FoundAll (events_of table.now) first.old first.new second.old second.new result }
{
    if n <= SMALL {
        find_within::<1, SMALL_ROWS>(table, n, first, second)
    } else if n <= MIDDLE {
        find_within::<2, MIDDLE_ROWS>(table, n, first, second)
    } else {
        find_within::<4, ROWS>(table, n, first, second)
    }
}
