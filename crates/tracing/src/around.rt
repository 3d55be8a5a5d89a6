// From a out to another record, on by hb, and in to b: what wb0 and the last case of hbsc ask.
ghost use Rattle.laws.specs.Says.{Says};
ghost use Rattle.model.specs.Relations.{WriteOrReader};
ghost use Rattle.table.specs.Events.{events_of};
ghost use Rattle.facts.specs.Sound.{Two, Placed};
ghost use Rattle.tracing.specs.Around.{BeforeOwned, OwnedBefore, BeforeElsewhere, ElsewhereBefore};

use asking::before::before;
use asking::tree::elsewhere;
use facts::source;

// "w or a reader of w"
fn owns(table: &[u8], w: usize, x: usize) -> bool
    requires { Two table.now w x }
    ensures { Says result (WriteOrReader (events_of table.now) w x) }
{
    w == x
        || match source(table, x) {
            None => false,
            Some(s) => s as usize == w,
        }
}

// Whether a record "is hb before w' or a reader of w'", with v for w'.
fn before_owned(table: &[u8], n: usize, from: usize, v: usize) -> bool
    requires { Placed table.now n from v }
    ensures { Says result (BeforeOwned (events_of table.now) from v) }
{
    (0..n).any(|to| owns(table, v, to) && before(table, from, to))
}

// "if w or a reader of w is hb before w' or a reader of w'"
pub fn owned_before(table: &[u8], n: usize, w: usize, v: usize) -> bool
    requires { Placed table.now n w v }
    ensures { Says result (OwnedBefore (events_of table.now) w v) }
{
    (0..n).any(|from| owns(table, w, from) && before_owned(table, n, from, v))
}

// "then hb, then po≠"
fn before_elsewhere(table: &[u8], n: usize, c: usize, b: usize) -> bool
    requires { Placed table.now n c b }
    ensures { Says result (BeforeElsewhere (events_of table.now) c b) }
{
    (0..n).any(|d| elsewhere(table, d, b) && before(table, c, d))
}

// "po≠, then hb, then po≠"
pub fn elsewhere_before(table: &[u8], n: usize, a: usize, b: usize) -> bool
    requires { Placed table.now n a b }
    ensures { Says result (ElsewhereBefore (events_of table.now) a b) }
{
    (0..n).any(|c| elsewhere(table, a, c) && before_elsewhere(table, n, c, b))
}
