// A2, A3, A5 and W: the least pair that shows each, in rows of the pairs that do.
ghost use Rattle.std.specs.Prelude.{◌≤◌, length};
ghost use Rattle.findings.specs.declared.Finding.TheVariants.{A2, A3, A5};
ghost use Rattle.findings.specs.declared.Finding.TheVariants as finding;
ghost use Rattle.findings.specs.Meant.{Finds};
ghost use Rattle.model.specs.Table.{Table, Source};
ghost use Rattle.model.specs.Relations.{Hb, Conflict, EarlierRace};
ghost use Rattle.model.specs.Findings.{Shows};
ghost use Rattle.rows.specs.Rows.{Room, Holds};
ghost use Rattle.pairs.specs.Tokens.{TakerRoom};
ghost use Rattle.columns.specs.Columns.{parent_number, arm_number, source_number, kind_number, Column, Known};
ghost use Rattle.seeking.specs.Pairs.{SourceRoom};

use columns::View;
use findings::Found;
use pairs::asked::{meet, meet_led, of_codes, tokens};
use pairs::least::least_pair;
use pairs::twice::taken_twice;
use rows::whole::relates_any;
use spread::apart::apart;

// A2: "p conflicts with q and p hb q"
pub fn find_before_in_conflict<const W: usize>(
    hb: &[[u64; W]],
    cf: &[[u64; W]],
    shows: &mut [[u64; W]],
    n: usize,
) -> Found
    requires { Room W n n hb.now × Room W n n cf.now × Room W n n shows.old }
    ensures { (t : Table) → Known t n → Holds W n (Hb t) hb.now → Holds W n (Conflict t) cf.now → Finds (Shows t A2) result }
{
    meet(hb, cf, shows, n);
    least_pair(shows, n)
}

// W: "two writes race", "p before q in the table". A kind of 2 or more writes.
pub fn find_racing_writes<const W: usize>(
    kind: &[u8],
    race: &[[u64; W]],
    shows: &mut [[u64; W]],
    n: usize,
) -> Found
    requires { (n ≤ length kind.now) × Room W n n race.now × Room W n n shows.old }
    ensures { (t : Table) → Known t n → Column n (kind_number t) kind.now → Holds W n (EarlierRace t) race.now → Finds (Shows t finding.W) result }
{
    if !relates_any(race, n) {
        return Found::Nothing;
    }
    of_codes(kind, 2, race, shows, n);
    least_pair(shows, n)
}

// A5: "two different updates, not in conflict, have the same source". `takers` is room to work in.
pub fn find_token_taken_twice<const W: usize>(
    of: View<'_>,
    cf: &[[u64; W]],
    takers: &mut [[u64; W]],
    shows: &mut [[u64; W]],
    n: usize,
) -> Found
    requires { TakerRoom W n of.kind.now of.source.now takers.old × Room W n n cf.now × Room W n n shows.old }
    ensures { (t : Table) → Known t n → Column n (kind_number t) of.entry.kind.now → Column n (source_number t) of.entry.source.now → Holds W n (Conflict t) cf.now → Finds (Shows t A5) result }
{
    if !taken_twice(of.kind, of.source, n) {
        return Found::Nothing;
    }
    tokens(of.kind, of.source, cf, takers, shows, n);
    least_pair(shows, n)
}

// A3: "r' hb r, both have sources, and the two sources conflict". `below`, `arms` and `conflicting` are room to work in; the last then has, of each
// record, the readers of what conflicts with it.
pub fn find_sources_in_conflict<const W: usize>(
    of: View<'_>,
    readers: &[[u64; W]],
    hb: &[[u64; W]],
    below: &mut [[u64; W]],
    arms: &mut [[u64; W]],
    conflicting: &mut [[u64; W]],
    shows: &mut [[u64; W]],
    n: usize,
) -> Found
    requires { SourceRoom W n of.parent.now of.arm.now of.source.now readers.now hb.now below.old arms.old conflicting.old shows.old }
    ensures { (t : Table) → Known t n → Column n (parent_number t) of.entry.parent.now → Column n (arm_number t) of.entry.arm.now → Column n (source_number t) of.entry.source.now → Holds W n (λ a s. Source t s a) readers.now → Holds W n (Hb t) hb.now → Finds (Shows t A3) result }
{
    apart(of.parent, of.arm, readers, below, arms, conflicting, n);
    meet_led(of.source, hb, conflicting, shows, n);
    least_pair(shows, n)
}
