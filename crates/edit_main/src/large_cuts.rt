// Cuts of a table of as many records as there may be.
ghost use Rattle.std.specs.Prelude.{◌*◌, ◌<◌, ◌≤◌, length};
ghost use Rattle.limits.specs.Limit.{limit};
ghost use Rattle.record.specs.Form.{record_size};

use crate::cuts::say_answer;
use crate::shown::say_record;
use edit::cutting::cut;
use limits::LIMIT;
use programs::{large, say};
use record::places::SIZE;
use selections::SELECTION;
use std::io;

// What a cut into the first `room` bytes gives, and sixteen bytes of the output as record n.
fn say_cut(
    rt: &impl Print,
    what: &[u8],
    table: &[u8],
    selection: &[u8],
    out: &mut [u8],
    room: usize,
    n: usize,
) -> io::Result<()>
    requires { (room ≤ length out.old) × (record_size * limit ≤ length out.old) × (n < limit) }
{
    say::text(rt, what)?;
    say_answer(rt, cut(table, selection, &mut out[0..room]))?;
    say::text(rt, b"\n")?;
    let at = SIZE * n;
    say_record(rt, &out[at..at + SIZE])
}

// The chain of 200 (each record the parent of the next): a front of it can be kept, and record 199 with all before it.
pub fn of_chain(rt: &impl Print) -> io::Result<()> {
    let mut t = [0u8; SIZE * LIMIT];
    large::write(large::chain, 200, &mut t);
    let mut all = [255u8; SELECTION];
    let mut out = [0xaau8; SIZE * LIMIT];
    say_cut(
        rt,
        b"chain, all in 3199 bytes",
        &t,
        &all,
        &mut out,
        SIZE * LIMIT - 1,
        199,
    )?;
    say_cut(
        rt,
        b"chain, all in 3200 bytes",
        &t,
        &all,
        &mut out,
        SIZE * LIMIT,
        199,
    )?;
    all[15] = 0b0111_1111;
    let mut rest = [0xaau8; SIZE * LIMIT];
    say_cut(
        rt,
        b"chain, all but 127",
        &t,
        &all,
        &mut rest,
        SIZE * LIMIT,
        0,
    )?;
    let mut last = [0u8; SELECTION];
    last[SELECTION - 1] = 0b1000_0000;
    say_cut(rt, b"chain, 199", &t, &last, &mut rest, SIZE * LIMIT, 0)?;
    let mut front = [0u8; SELECTION];
    front[0] = 255;
    front[1] = 0b1;
    say_cut(rt, b"chain, 0 to 8", &t, &front, &mut rest, SIZE * LIMIT, 8)
}
