// wb0 between two writes.
ghost use Rattle.laws.specs.Says.{Says};
ghost use Rattle.model.specs.Relations.{Wb0};
ghost use Rattle.model.proofs.Within.{wb0_within};
ghost use Rattle.table.specs.Events.{events_of};
ghost use Rattle.facts.specs.Sound.{Two};
ghost use Rattle.facts.proofs.Records.{formed, within_count};
ghost use Rattle.tracing.specs.Around.{TwoWrites};

use crate::around::owned_before;
use crate::layers::Steps;
use facts::{same_location, writes};
use limits::LIMIT;

// "from write w to a different write w' of one location"
fn two_writes(table: &[u8], w: usize, v: usize) -> bool
    requires { Two table.now w v }
    ensures { Says result (TwoWrites (events_of table.now) w v) }
{
    writes(table, w) & writes(table, v) & (w != v) & same_location(table, w, v)
}

// wb0, for A1.
pub struct Wb0;

impl Steps for Wb0 {
    ghost step = { Wb0 };

    ghost among = { λ bytes n counted. within_count counted (wb0_within (formed counted)) };

    fn is_step(table: &[u8], n: usize, w: usize, v: usize) -> bool {
        two_writes(table, w, v) && owned_before(table, n, w, v)
    }

    fn column(table: &[u8], n: usize, y: usize) -> [bool; LIMIT] {
        let mut col = [false; LIMIT];
        for x in 0..n {
            col[x] = Self::is_step(table, n, x, y);
        }
        col
    }
}
