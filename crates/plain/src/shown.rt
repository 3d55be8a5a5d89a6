// Whether two records show a finding.
ghost use Rattle.laws.specs.Says.{Says};
ghost use Rattle.model.specs.Table.{Source};
ghost use Rattle.model.specs.Relations.{Conflict};
ghost use Rattle.model.specs.Findings.{ShowsA2, ShowsA3, ShowsA5, ShowsW};
ghost use Rattle.table.specs.Events.{events_of};
ghost use Rattle.facts.specs.Sound.{One, Two};
ghost use Rattle.links.specs.Sourced.{FromSource};

use asking::before::before;
use asking::conflict::conflict;
use asking::race::races;
use facts::{source, updates, writes};

// A2: "p conflicts with q and p hb q"
pub fn conflict_before(table: &[u8], p: usize, q: usize) -> bool
    requires { Two table.now p q }
    ensures { Says result (ShowsA2 (events_of table.now) p q) }
{
    conflict(table, p, q) && before(table, p, q)
}

// Whether r has a source that conflicts with s.
fn source_conflicts(table: &[u8], r: usize, s: usize) -> bool
    requires { Two table.now r s }
    ensures { Says result (FromSource (events_of table.now) (Conflict (events_of table.now)) r s) }
{
    match source(table, r) {
        None => false,
        Some(of) => conflict(table, of as usize, s),
    }
}

// A3: "r' hb r, both have sources, and the two sources conflict", with p for r' and q for r
pub fn sources_conflict(table: &[u8], p: usize, q: usize) -> bool
    requires { Two table.now p q }
    ensures { Says result (ShowsA3 (events_of table.now) p q) }
{
    match source(table, q) {
        None => false,
        Some(s) => before(table, p, q) && source_conflicts(table, p, s as usize),
    }
}

// Whether record r reads from record s.
fn reads_from(table: &[u8], s: u8, r: usize) -> bool
    requires { One table.now r }
    ensures { Says result (Source (events_of table.now) s r) }
{
    match source(table, r) {
        None => false,
        Some(of) => of == s,
    }
}

// A5: "two different updates, not in conflict, have the same source", p before q in the table
pub fn one_token(table: &[u8], p: usize, q: usize) -> bool
    requires { Two table.now p q }
    ensures { Says result (ShowsA5 (events_of table.now) p q) }
{
    let Some(s) = source(table, p) else {
        return false; // no source is not a source: no token was taken
    };
    (p < q)
        & updates(table, p)
        & updates(table, q)
        & reads_from(table, s, q)
        & !conflict(table, p, q)
}

// W: "two writes race", "p before q in the table"
pub fn writes_race(table: &[u8], p: usize, q: usize) -> bool
    requires { Two table.now p q }
    ensures { Says result (ShowsW (events_of table.now) p q) }
{
    (p < q) & writes(table, p) & writes(table, q) && races(table, p, q)
}
