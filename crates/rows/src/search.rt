// The numbers of a row, one after another.
ghost use Rattle.std.specs.Prelude.{◌*◌, ◌≤◌, ◌<◌, length};
ghost use Rattle.rows.specs.Found.{NextOf, LastOf};

// The least number of row b that is lo or more, or 64 * W.
pub fn next<const W: usize>(m: &[[u64; W]], b: usize, lo: usize) -> usize
    requires { (W ≤ 4) × (b < length m.now) × (lo ≤ 64 * W) }
    ensures { NextOf W m.now b lo result }
{
    let mut at = lo;
    while at / 64 < W {
        let x = m[b][at / 64] >> (at % 64);
        if x != 0 {
            return at + x.trailing_zeros() as usize;
        }
        at = 64 * (at / 64 + 1);
    }
    64 * W
}

// The greatest number of row b, or 64 * W.
pub fn last<const W: usize>(m: &[[u64; W]], b: usize) -> usize
    requires { (W ≤ 4) × (b < length m.now) }
    ensures { LastOf W m.now b result }
{
    for k in (0..W).rev() {
        let x = m[b][k];
        if x != 0 {
            return 64 * k + (63 - x.leading_zeros() as usize);
        }
    }
    64 * W
}
