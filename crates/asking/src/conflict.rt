// Whether two records conflict, by climbing from both.
ghost use Rattle.laws.specs.Says.{Says};
ghost use Rattle.model.specs.Relations.{Apart, Conflict};
ghost use Rattle.table.specs.Events.{events_of};
ghost use Rattle.facts.specs.Sound.{Two};
ghost use Rattle.asking.specs.Climb.{ApartAbove};

use crate::tree::ancestor;
use facts::{parent, thread};

// Whether a and b "have one thread, differ, and neither is above the other".
fn apart(table: &[u8], a: usize, b: usize) -> bool
    requires { Two table.now a b }
    ensures { Says result (Apart (events_of table.now) a b) }
{
    (thread(table, a) == thread(table, b))
        & (a != b)
        & !ancestor(table, a, b)
        & !ancestor(table, b, a)
}

// Whether a is apart from b or from a record above b: b climbs.
fn apart_above(table: &[u8], a: usize, b: usize) -> bool
    requires { Two table.now a b }
    ensures { Says result (ApartAbove (events_of table.now) a b) }
{
    apart(table, a, b)
        || match parent(table, b) {
            None => false,
            Some(p) => apart_above(table, a, p as usize),
        }
}

// Whether a and b conflict: a climbs, and b from the start for each record that a comes to.
pub fn conflict(table: &[u8], a: usize, b: usize) -> bool
    requires { Two table.now a b }
    ensures { Says result (Conflict (events_of table.now) a b) }
{
    apart_above(table, a, b)
        || match parent(table, a) {
            None => false,
            Some(p) => conflict(table, p as usize, b),
        }
}
