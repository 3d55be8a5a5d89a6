// Reads that are justified, and reads that are not.
ghost use Rattle.std.specs.Prelude.{◌<◌};
ghost use Rattle.laws.specs.Says.{Says};
ghost use Rattle.model.specs.Relations.{EarlierRace, WriteBefore, SomeEarlierRace, SomeWriteBefore, Justified};
ghost use Rattle.model.specs.Findings.{ShowsR};
ghost use Rattle.table.specs.Events.{events_of};
ghost use Rattle.facts.specs.Sound.{Two, Counted};

use asking::before::before;
use asking::race::races;
use facts::{reads, same_location, source, writes};

// A race with "a write earlier in the table".
fn races_earlier(table: &[u8], w: usize, r: usize) -> bool
    requires { Two table.now w r }
    ensures { Says result (EarlierRace (events_of table.now) w r) }
{
    (w < r) & writes(table, w) && races(table, w, r)
}

// Whether there is one.
fn raced(table: &[u8], n: usize, r: usize) -> bool
    requires { Counted table.now n × (r < n) }
    ensures { Says result (SomeEarlierRace (events_of table.now) r) }
{
    (0..n).any(|w| races_earlier(table, w, r))
}

// A "write of its location is hb before it".
fn written_before(table: &[u8], w: usize, r: usize) -> bool
    requires { Two table.now w r }
    ensures { Says result (WriteBefore (events_of table.now) w r) }
{
    writes(table, w) & same_location(table, w, r) && before(table, w, r)
}

// Whether one is.
fn written(table: &[u8], n: usize, r: usize) -> bool
    requires { Counted table.now n × (r < n) }
    ensures { Says result (SomeWriteBefore (events_of table.now) r) }
{
    (0..n).any(|w| written_before(table, w, r))
}

// "A read with a source is justified if its source is hb before it and no write earlier in the table races with it. A read without a source
// is justified if no write of its location is hb before it, or some earlier write races with it."
fn justified(table: &[u8], n: usize, r: usize) -> bool
    requires { Counted table.now n × (r < n) }
    ensures { Says result (Justified (events_of table.now) r) }
{
    match source(table, r) {
        None => !written(table, n, r) || raced(table, n, r),
        Some(s) => before(table, s as usize, r) && !raced(table, n, r),
    }
}

// R: "some read is not justified"
pub fn unjustified(table: &[u8], n: usize, r: usize) -> bool
    requires { Counted table.now n × (r < n) }
    ensures { Says result (ShowsR (events_of table.now) r) }
{
    reads(table, r) && !justified(table, n, r)
}
