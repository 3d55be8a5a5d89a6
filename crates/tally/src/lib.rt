// Monday's figures as values: none, and the sums of two.
#![tactic(auto)]

ghost use Rattle.std.specs.Prelude.{◌≡◌, []};
ghost use Rattle.tally.specs.Figures.{figures_of};
ghost use Rattle.tally.specs.Sums.{add_each, sums, SmallEach, Small};

use findings::Finding;

// The refusals that a table can get: 1 to 8.
pub const NUMBERS: usize = 8;

// Each of them, in order.
pub const EACH_NUMBER: [usize; NUMBERS] = [1, 2, 3, 4, 5, 6, 7, 8];

// The figures over some tables.
#[derive(Clone, Copy)]
pub struct Figures {
    pub tables: usize,
    // by number, from 1 on
    pub refused: [usize; NUMBERS],
    // in the order of the report
    pub found: [usize; Finding::COUNT],
    pub consistent: usize,
    pub inconsistent: usize,
    pub undefined: usize,
    // in records, of those not refused; 0 if there is none
    pub largest: usize,
}

// The numbers at one place added, each with each.
fn sums_of<const N: usize>(mine: [usize; N], more: [usize; N]) -> [usize; N]
    requires { SmallEach mine × SmallEach more }
    ensures { result ≡ add_each mine.entry more.entry }
{
    let mut sums = mine;
    for (i, n) in more.iter().enumerate() {
        sums[i] += *n;
    }
    sums
}

impl Figures {
    // Over no table.
    #[tactic(auto, unfolding(crate::specs::Figures::figures_of))]
    pub fn none() -> Figures
        ensures { result ≡ figures_of [] }
    {
        Figures {
            tables: 0,
            refused: [0; NUMBERS],
            found: [0; Finding::COUNT],
            consistent: 0,
            inconsistent: 0,
            undefined: 0,
            largest: 0,
        }
    }

    // The sums of both; the largest is the larger.
    #[tactic(auto, unfolding(crate::specs::Sums::sums))]
    pub fn plus(self, more: Figures) -> Figures
        requires { Small self × Small more }
        ensures { result ≡ sums self more }
    {
        Figures {
            tables: self.tables + more.tables,
            refused: sums_of(self.refused, more.refused),
            found: sums_of(self.found, more.found),
            consistent: self.consistent + more.consistent,
            inconsistent: self.inconsistent + more.inconsistent,
            undefined: self.undefined + more.undefined,
            largest: self.largest.max(more.largest),
        }
    }
}
