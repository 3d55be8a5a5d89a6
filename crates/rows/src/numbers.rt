// The numbers of a set, one after another.
ghost use Rattle.std.specs.Prelude.{◌*◌, ◌≤◌, ◌-◌};
ghost use Rattle.std.specs.Iterator.{at_most};
ghost use Rattle.rows.specs.Numbers.{Starts, Goes, Steps};

use crate::search::next;
use crate::set::Set;
use std::slice;

// Those that are `at` or more, and below `end`.
#[derive(Clone, Copy)]
pub struct Numbers<const W: usize> {
    pub of: Set<W>,
    pub at: usize,
    pub end: usize,
}

impl<const W: usize> Iterator for Numbers<W> {
    type Item = usize;

    ghost can_next = { Goes };

    ghost next_gives = { Steps };

    ghost remaining = { λ s. at_most (s.end - s.at) };

    fn next(&mut self) -> Option<usize> {
        let v = next(slice::from_ref(&self.of.words), 0, self.at);
        if v < self.end {
            self.at = v + 1;
            Some(v)
        } else {
            None
        }
    }
}

impl<const W: usize> Set<W> {
    // The numbers below n.
    pub fn below(self, n: usize) -> Numbers<W>
        requires { (W ≤ 4) × (n ≤ 64 * W) }
        ensures { Starts result self.entry n }
    {
        Numbers {
            of: self,
            at: 0,
            end: n,
        }
    }
}
