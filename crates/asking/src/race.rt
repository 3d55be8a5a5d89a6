// Whether two records race.
ghost use Rattle.laws.specs.Says.{Says};
ghost use Rattle.model.specs.Relations.{Race};
ghost use Rattle.table.specs.Events.{events_of};
ghost use Rattle.facts.specs.Sound.{Two};
ghost use Rattle.asking.specs.Meet.{CanRace, Unordered};

use crate::before::before;
use crate::conflict::conflict;
use facts::{not_atomic, same_location, writes};

// "two different records of one location, at least one a write, at least one NA"
fn can_race(table: &[u8], a: usize, b: usize) -> bool
    requires { Two table.now a b }
    ensures { Says result (CanRace (events_of table.now) a b) }
{
    (a != b)
        & same_location(table, a, b)
        & (writes(table, a) | writes(table, b))
        & (not_atomic(table, a) | not_atomic(table, b))
}

// "neither hb the other, not in conflict"
fn unordered(table: &[u8], a: usize, b: usize) -> bool
    requires { Two table.now a b }
    ensures { Says result (Unordered (events_of table.now) a b) }
{
    !before(table, a, b) & !before(table, b, a) & !conflict(table, a, b)
}

// Whether a and b race; what is long to ask is asked only where the rest fits.
pub fn races(table: &[u8], a: usize, b: usize) -> bool
    requires { Two table.now a b }
    ensures { Says result (Race (events_of table.now) a b) }
{
    can_race(table, a, b) && unordered(table, a, b)
}
