// A set of small numbers as a value: words with a bit for each number.
ghost use Rattle.std.specs.Prelude.{◌⊎◌, ◌≡◌, ℕ, ◌*◌, ◌<◌};
ghost use Rattle.laws.specs.Says.{Says};
ghost use Rattle.rows.specs.Sets.{In, Is};

use crate::bits::take_in;

#[derive(Clone, Copy)]
pub struct Set<const W: usize> {
    pub words: [u64; W],
}

impl<const W: usize> Set<W> {
    pub fn nothing() -> Self
        ensures { Is result (λ a. ⊥) }
    {
        Set { words: [0; W] }
    }

    pub fn has(self, a: usize) -> bool
        requires { a < 64 * W }
        ensures { Says result (In self.entry a) }
    {
        (self.words[a / 64] >> (a % 64)) % 2 == 1
    }

    pub fn add(&mut self, a: usize)
        requires { a < 64 * W }
        ensures { Is self.new (λ x. In self.old x ⊎ (x ≡ a)) }
    {
        take_in(&mut self.words, a);
    }

    pub fn or(mut self, y: Self) -> Self
        ensures { Is result (λ a. In self.entry a ⊎ In y.entry a) }
    {
        for k in 0..W {
            self.words[k] |= y.words[k];
        }
        self
    }

    pub fn and(mut self, y: Self) -> Self
        ensures { Is result (λ a. In self.entry a × In y.entry a) }
    {
        for k in 0..W {
            self.words[k] &= y.words[k];
        }
        self
    }

    pub fn without(mut self, y: Self) -> Self
        ensures { Is result (λ a. In self.entry a × (¬ In y.entry a)) }
    {
        for k in 0..W {
            self.words[k] &= !y.words[k];
        }
        self
    }

    pub fn is_empty(self) -> bool
        ensures { Says result ((a : ℕ) → ¬ In self.entry a) }
    {
        self.words.iter().all(|x| *x == 0)
    }
}
