// How many steps it takes to one record: a byte for each record, found layer by layer.
ghost use Rattle.std.specs.Prelude.{List, ℕ, ◌<◌, ◌≤◌, ◌+◌};
ghost use Rattle.laws.specs.Says.{Says};
ghost use Rattle.laws.specs.Steps.{Rel};
ghost use Rattle.laws.proofs.Steps.{Within};
ghost use Rattle.model.specs.Table.{Table};
ghost use Rattle.table.specs.Events.{events_of};
ghost use Rattle.limits.specs.Limit.{limit};
ghost use Rattle.facts.specs.Sound.{Counted, Placed};
ghost use Rattle.tracing.specs.Layers.{Column, Blank, Spread, Round, StepsTo, Numbered};

use limits::LIMIT;

// No number of steps: a byte above all others, so that fewer is one comparison, as it would not be of `Option<u8>`.
pub const NONE: u8 = 255;

// A relation of which a cycle is looked for.
pub trait Steps {
    ghost step: { Table → Rel };

    // Whether a steps to b.
    fn is_step(table: &[u8], n: usize, a: usize, b: usize) -> bool
        requires { Placed table.now n a b }
        ensures { Says result (step (events_of table.now) a b) };

    // Which records step to y.
    fn column(table: &[u8], n: usize, y: usize) -> [bool; LIMIT]
        requires { Numbered table.now n y }
        ensures { Column (step (events_of table.now)) n y result };

    // Only records step, and only to records.
    ghost among: { (bytes : List ℕ) (n : ℕ) → Counted bytes n → Within n (step (events_of bytes)) };
}

// Each record that the column names and that has no entry gets k. Only the records are gone over, as few tables have as many as there is room for.
fn spread(col: &[bool; LIMIT], n: usize, k: u8, dist: &mut [u8; LIMIT])
    requires { n ≤ limit }
    ensures { Spread n k col.now dist.old dist.new }
{
    for x in 0..n {
        if col[x] && dist[x] == NONE {
            dist[x] = k;
        }
    }
}

// The layer after layer k: what is one step from a record of layer k, and in no layer yet.
fn round<S: Steps>(table: &[u8], n: usize, k: u8, dist: &mut [u8; LIMIT])
    requires { Counted table.now n × (k < 254) }
    ensures { Round (S.step (events_of table.now)) n k 0 n dist.old dist.new }
{
    for y in 0..n {
        if dist[y] == k {
            spread(&S::column(table, n, y), n, k + 1, dist);
        }
    }
}

// The fewest steps to s, in a row that has no entries yet. A function of its own: in most rounds no record has layer k, and that loop
// takes half the time, at best, over a row that is lent (docs/DECISIONS.md, 89).
#[inline(never)]
fn by_layers<S: Steps>(table: &[u8], n: usize, s: usize, dist: &mut [u8; LIMIT])
    requires { Numbered table.now n s × Blank n dist.old }
    ensures { StepsTo (S.step (events_of table.now)) n s dist.new }
{
    spread(&S::column(table, n, s), n, 1, dist);
    for k in 1..254 {
        round::<S>(table, n, k, dist);
    }
}

// The fewest steps to s.
pub fn steps_to<S: Steps>(table: &[u8], n: usize, s: usize) -> [u8; LIMIT]
    requires { Numbered table.now n s }
    ensures { StepsTo (S.step (events_of table.now)) n s result }
{
    let mut dist = [NONE; LIMIT];
    by_layers::<S>(table, n, s, &mut dist);
    dist
}
