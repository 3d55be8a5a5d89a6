// A byte as a number that can count or index: the one place that widens a byte of a slice, so that no caller has to bound it.
#![tactic(auto)]

ghost use Rattle.std.specs.Prelude.{◌≡◌};

pub fn wide(byte: u8) -> usize
    ensures { result ≡ byte }
{
    byte as usize
}
