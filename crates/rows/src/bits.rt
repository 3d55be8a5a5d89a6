// Words with a bit for each number.
ghost use Rattle.std.specs.Prelude.{◌≡◌, ◌*◌, ◌<◌, length};
ghost use Rattle.rows.specs.Sets.{with_bit, without_bit};

// They take in a.
pub fn take_in<const W: usize>(words: &mut [u64; W], a: usize)
    requires { a < 64 * W }
    ensures width { length words.old ≡ W }
    ensures after { words.new ≡ with_bit words.old a }
{
    words[a / 64] |= 1 << (a % 64);
}

// They lose a.
pub fn let_go<const W: usize>(words: &mut [u64; W], a: usize)
    requires { a < 64 * W }
    ensures width { length words.old ≡ W }
    ensures after { words.new ≡ without_bit words.old a }
{
    words[a / 64] &= !(1 << (a % 64));
}
