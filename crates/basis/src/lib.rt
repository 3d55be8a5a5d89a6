// What the searches and a cut stand on, from a table's columns: hb, conflict, the writes of each place, and the races with earlier writes.
#![tactic(auto)]

ghost use Rattle.model.specs.Table.{Table};
ghost use Rattle.model.specs.Relations.{Conflict};
ghost use Rattle.rows.specs.Rows.{Made};
ghost use Rattle.columns.specs.Columns.{parent_number, arm_number, Column, Known};
ghost use Rattle.basis.specs.Laid.{BranchRoom, LayRoom, Laying, Laid};

use columns::View;
use combined::race::races;
use rows::whole::{clear, each_itself};
use spread::apart::apart;
use spread::forks::forks;
use spread::onward::before;

// Conflict. Where no record has two arms there is none, and nothing but `cf` is touched. `own`, `below` and `arms` are room to work in.
fn lay_conflict<const W: usize>(
    parent: &[u8],
    arm: &[u8],
    own: &mut [[u64; W]],
    below: &mut [[u64; W]],
    arms: &mut [[u64; W]],
    cf: &mut [[u64; W]],
    n: usize,
)
    requires { BranchRoom W n parent.now arm.now own.old below.old arms.old cf.old }
    ensures { (t : Table) → Known t n → Column n (parent_number t) parent.now → Column n (arm_number t) arm.now → Made W n (Conflict t) cf.old cf.new }
{
    if forks(arm, n) {
        each_itself(own, n);
        apart(parent, arm, own, below, arms, cf, n);
    } else {
        clear(cf, n);
    }
}

// `own`, `below`, `arms` and `na` are room to work in.
pub fn lay<const W: usize>(
    of: View<'_>,
    own: &mut [[u64; W]],
    below: &mut [[u64; W]],
    arms: &mut [[u64; W]],
    na: &mut [[u64; W]],
    hb: &mut [[u64; W]],
    cf: &mut [[u64; W]],
    at: &mut [[u64; W]],
    race: &mut [[u64; W]],
    n: usize,
)
    requires { BranchRoom W n of.parent.now of.arm.now own.old below.old arms.old cf.old × LayRoom W n of.sync.now of.place.now of.kind.now of.order.now na.old hb.old at.old race.old }
    ensures { (t : Table) → Laying t n of.entry.parent.now of.entry.arm.now of.entry.sync.now of.entry.place.now of.entry.kind.now of.entry.order.now → Laid t W n of.entry.place.now of.entry.kind.now hb.old cf.old at.old race.old hb.new cf.new at.new race.new }
{
    before(of.parent, of.sync, hb, n);
    lay_conflict(of.parent, of.arm, own, below, arms, cf, n);
    races(of.place, of.kind, of.order, hb, cf, at, na, race, n);
}
