// wb0, and A1: its least cycle.
ghost use Rattle.laws.specs.Says.{Says};
ghost use Rattle.findings.specs.declared.Finding.TheVariants.{A1};
ghost use Rattle.findings.specs.Meant.{FindsIn};
ghost use Rattle.model.specs.Table.{Table};
ghost use Rattle.model.specs.Relations.{Wb0};
ghost use Rattle.model.specs.Findings.{Shows};
ghost use Rattle.rows.specs.Rows.{Holds, Made};
ghost use Rattle.combined.specs.Writes.{HandingRoom};
ghost use Rattle.cycle.specs.Rounds.{GoesBack, Lends};
ghost use Rattle.columns.specs.Columns.{Known};
ghost use Rattle.seeking.specs.Writes.{Writing};

use columns::View;
use combined::writes::handed_on;
use cycle::least_cycle;
use findings::Found;

// wb0. `owners` is room to work in.
pub fn lay_writes<const W: usize>(
    of: View<'_>,
    at: &[[u64; W]],
    owners: &mut [[u64; W]],
    steps: &mut [[u64; W]],
    n: usize,
)
    requires { HandingRoom W n of.parent.now of.sync.now of.kind.now of.source.now of.place.now at.now owners.old steps.old }
    ensures { (t : Table) → Writing t W n of.entry.parent.now of.entry.sync.now of.entry.kind.now of.entry.source.now of.entry.place.now at.now → Made W n (Wb0 t) steps.old steps.new }
{
    handed_on(
        of.parent, of.sync, of.kind, of.source, of.place, at, owners, steps, n,
    );
}

// A1: the least cycle of wb0, at the front of `out`. `back` says whether one of its steps goes back in the table. `layers` is room to work in.
pub fn find_write_cycle<const W: usize>(
    steps: &[[u64; W]],
    back: bool,
    layers: &mut [[u64; W]],
    out: &mut [u8],
    n: usize,
) -> Found
    requires { Lends W n steps.now layers.old out.old × Says back (GoesBack W n steps.now) }
    ensures { (t : Table) → Known t n → Holds W n (Wb0 t) steps.now → FindsIn (Shows t A1) out.old out.new result }
{
    least_cycle(steps, back, n, layers, out)
}
