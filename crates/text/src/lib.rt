// Text into a lent buffer: pieces of bytes, decimal numbers, lists of numbers.
#![tactic(auto)]

ghost use Rattle.std.specs.Prelude.{◌≡◌, [], ◌∷◌, ◌+◌, ◌%◌, ◌≤◌, length, take};
ghost use Rattle.text.specs.Text.{Written, decimal, spaced, spaced_each};

use numbers::wide;

// A text in the making: the buffer that is lent for it, and the place after what stands there.
#[derive(Drop)]
pub struct Text<'a> {
    pub out: &'a mut [u8],
    pub at: usize,
}

fn digit(n: usize) -> u8
    ensures { result ≡ 48 + n % 10 }
{
    b'0' + ((n % 10) as u8)
}

impl Text<'_> {
    // Writes the bytes of `piece`.
    pub fn put(&mut self, piece: &[u8])
        requires { self.old.at + length piece.now ≤ length self.old.out.now }
        ensures same_reference { self.new.out.ghost_name ≡ self.old.out.ghost_name }
        ensures written { Written self.old.out.now self.old.at piece.now self.new.out.now self.new.at }
    {
        let at = self.at;
        let end = at + piece.len();
        self.out[at..end].copy_from_slice(piece);
        self.at = end;
    }

    fn put_byte(&mut self, b: u8)
        requires { self.old.at + 1 ≤ length self.old.out.now }
        ensures same_reference { self.new.out.ghost_name ≡ self.old.out.ghost_name }
        ensures written { Written self.old.out.now self.old.at (b ∷ []) self.new.out.now self.new.at }
    {
        self.out[self.at] = b;
        self.at += 1;
    }

    // Writes n in decimal, without leading zeros.
    pub fn put_decimal(&mut self, n: usize)
        requires { self.old.at + length (decimal n) ≤ length self.old.out.now }
        ensures same_reference { self.new.out.ghost_name ≡ self.old.out.ghost_name }
        ensures written { Written self.old.out.now self.old.at (decimal n) self.new.out.now self.new.at }
    {
        if n < 10 {
            return self.put_byte(digit(n));
        }
        self.put_decimal(n / 10);
        self.put_byte(digit(n))
    }

    // Writes a space and then n in decimal.
    pub fn put_spaced(&mut self, n: usize)
        requires { self.old.at + length (spaced n) ≤ length self.old.out.now }
        ensures same_reference { self.new.out.ghost_name ≡ self.old.out.ghost_name }
        ensures written { Written self.old.out.now self.old.at (spaced n) self.new.out.now self.new.at }
    {
        self.put_byte(b' ');
        self.put_decimal(n)
    }

    // Writes the first `count` bytes of `numbers` as numbers, each after one space.
    pub fn put_each(&mut self, numbers: &[u8], count: usize)
        requires { (count ≤ length numbers.now) × (self.old.at + length (spaced_each (take count numbers.now)) ≤ length self.old.out.now) }
        ensures same_reference { self.new.out.ghost_name ≡ self.old.out.ghost_name }
        ensures written { Written self.old.out.now self.old.at (spaced_each (take count numbers.now)) self.new.out.now self.new.at }
    {
        for n in &numbers[..count] {
            self.put_spaced(wide(*n));
        }
    }
}
