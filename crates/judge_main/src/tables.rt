// Tables of the shared kinds, judged.
ghost use Rattle.std.specs.Prelude.{◌<◌, ◌≤◌};
ghost use Rattle.limits.specs.Limit.{limit};
ghost use Rattle.record.specs.Form.{record_size};

use crate::said::say_judging;
use events::Record;
use limits::LIMIT;
use programs::script::WIDTH;
use programs::{examples, large, script};
use record::places::SIZE;
use std::io;

pub fn judge_script(rt: &impl Print, name: &[u8], script: &[u8]) -> io::Result<()> {
    let count = script.len() / WIDTH;
    if count <= LIMIT {
        let mut table = [0u8; SIZE * LIMIT];
        script::write(script, &mut table);
        return say_judging(rt, name, &table[0..SIZE * count]);
    }
    Ok(())
}

// The first `count` records of a large table.
pub fn judge_large<F: Fn(u8) -> Record>(
    rt: &impl Print,
    name: &[u8],
    numbered: F,
    count: u8,
) -> io::Result<()>
    requires callable { F.IsAlwaysCallable numbered }
    requires few { count ≤ limit }
{
    let mut table = [0u8; SIZE * LIMIT];
    large::write(numbered, count, &mut table);
    say_judging(rt, name, &table[0..SIZE * (count as usize)])
}

// E2 with one byte of record n changed.
pub fn judge_changed(
    rt: &impl Print,
    name: &[u8],
    n: usize,
    place: usize,
    byte: u8,
) -> io::Result<()>
    requires { (n < 5) × (place < record_size) }
{
    say_judging(rt, name, &examples::changed(n, place, byte))
}
