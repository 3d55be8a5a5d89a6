// Steps among SC records.
ghost use Rattle.laws.specs.Says.{Says};
ghost use Rattle.model.specs.Table.{SC};
ghost use Rattle.model.specs.Relations.{Fr, HbscBy, ScStepBy, ScStep};
ghost use Rattle.table.specs.Events.{events_of};
ghost use Rattle.model.proofs.Within.{sc_step_within};
ghost use Rattle.facts.specs.Sound.{Two, Placed};
ghost use Rattle.facts.proofs.Records.{formed, within_count};
ghost use Rattle.tracing.specs.Around.{AtOneLocation};
ghost use Rattle.tracing.specs.Layers.{WbRow};

use crate::around::elsewhere_before;
use crate::layers::{NONE, Steps, steps_to};
use crate::writes::Wb0;
use asking::before::before;
use asking::tree::elsewhere;
use facts::{same_location, sequential, source};
use limits::LIMIT;

// "hb at one location"
fn before_at_one_location(table: &[u8], a: usize, b: usize) -> bool
    requires { Two table.now a b }
    ensures { Says result (AtOneLocation (events_of table.now) a b) }
{
    same_location(table, a, b) && before(table, a, b)
}

// hbsc, whatever the two orders are: "hb at one location; or po≠; or po≠, then hb, then po≠"
fn hbsc(table: &[u8], n: usize, a: usize, b: usize) -> bool
    requires { Placed table.now n a b }
    ensures { Says result (HbscBy (events_of table.now) a b) }
{
    before_at_one_location(table, a, b)
        || elsewhere(table, a, b)
        || elsewhere_before(table, n, a, b)
}

// fr: "from a read to a write that its source is wb before, the read itself excepted"; the row says what is wb before b.
fn reads_before(table: &[u8], n: usize, wb: &[u8; LIMIT], a: usize, b: usize) -> bool
    requires { WbRow table.now n a b wb.now }
    ensures { Says result (Fr (events_of table.now) a b) }
{
    a != b
        && match source(table, a) {
            None => false,
            Some(s) => wb[s as usize] != NONE,
        }
}

// "hbsc, wb and fr together", asked of two SC records
fn any_step(table: &[u8], n: usize, wb: &[u8; LIMIT], a: usize, b: usize) -> bool
    requires { WbRow table.now n a b wb.now × (SC (events_of table.now) a × SC (events_of table.now) b) }
    ensures { Says result (ScStepBy (events_of table.now) a b) }
{
    wb[a] != NONE || reads_before(table, n, wb, a, b) || hbsc(table, n, a, b)
}

// A step "among SC records".
fn sc_step(table: &[u8], n: usize, wb: &[u8; LIMIT], a: usize, b: usize) -> bool
    requires { WbRow table.now n a b wb.now }
    ensures { Says result (ScStep (events_of table.now) a b) }
{
    sequential(table, a) & sequential(table, b) && any_step(table, n, wb, a, b)
}

// The steps among SC records, for A4.
pub struct Sc;

impl Steps for Sc {
    ghost step = { ScStep };

    ghost among = { λ bytes n counted. within_count counted (sc_step_within (formed counted)) };

    fn is_step(table: &[u8], n: usize, a: usize, b: usize) -> bool {
        Self::column(table, n, b)[a]
    }

    // wb before y is asked once for all records.
    fn column(table: &[u8], n: usize, y: usize) -> [bool; LIMIT] {
        let wb = steps_to::<Wb0>(table, n, y);
        let mut col = [false; LIMIT];
        for x in 0..n {
            col[x] = sc_step(table, n, &wb, x, y);
        }
        col
    }
}
