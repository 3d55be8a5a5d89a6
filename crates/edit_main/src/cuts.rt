// Cuts of small tables, and what they give.
ghost use Rattle.std.specs.Prelude.{◌≤◌, length};

use crate::appends::build;
use crate::shown::say_records;
use edit::cutting::cut;
use programs::examples::{E8, E9};
use programs::{examples, say};
use record::places::{MARK_SECOND, SIZE};
use refusals::Refusal;
use selections::SELECTION;
use std::io;

// A cut into the first `room` bytes.
fn cut_within(table: &[u8], selection: &[u8], out: &mut [u8], room: usize) -> Result<usize, Refusal>
    requires { room ≤ length out.old }
{
    cut(table, selection, &mut out[0..room])
}

// Says what a cut answered; how many records it wrote.
pub fn say_answer(rt: &impl Print, answer: Result<usize, Refusal>) -> io::Result<usize> {
    match answer {
        Ok(k) => {
            say::number(rt, b" kept ", k)?;
            Ok(k)
        }
        Err(r) => {
            say::text(rt, b" ")?;
            say::refusal(rt, r)?;
            Ok(0)
        }
    }
}

// What a cut into so many bytes gives, what it wrote, and the sixteen bytes that follow.
fn say_cut_by(
    rt: &impl Print,
    what: &[u8],
    table: &[u8],
    selection: &[u8],
    room: usize,
) -> io::Result<()>
    requires { room ≤ 256 }
{
    say::text(rt, what)?;
    let mut out = [0xaau8; 256];
    let kept = say_answer(rt, cut_within(table, selection, &mut out, room))?;
    say::text(rt, b"\n")?;
    say_records(rt, &out, kept)
}

// The selection that names the records of the bits of two bytes.
fn of_two(first: u8, second: u8) -> [u8; SELECTION] {
    let mut selection = [0u8; SELECTION];
    selection[0] = first;
    selection[1] = second;
    selection
}

fn say_cut(
    rt: &impl Print,
    what: &[u8],
    table: &[u8],
    first: u8,
    second: u8,
    room: usize,
) -> io::Result<()>
    requires { room ≤ 256 }
{
    say_cut_by(rt, what, table, &of_two(first, second), room)
}

pub fn of_e2(rt: &impl Print) -> io::Result<()> {
    let e2 = examples::e2();
    say_cut(rt, b"E2, 0 1 3", &e2, 0b1011, 0, 256)?;
    say_cut(rt, b"E2, 0 1 3 and no room", &e2, 0b1011, 0, 0)?;
    say_cut(rt, b"E2, 0 to 3 in 63 bytes", &e2, 0b1111, 0, 63)?;
    say_cut(rt, b"E2, 0 to 3 in 64 bytes", &e2, 0b1111, 0, 64)?;
    say_cut(rt, b"E2, all", &e2, 0b11111, 0, 256)
}

pub fn bad_selections_of_e2(rt: &impl Print) -> io::Result<()> {
    let e2 = examples::e2();
    say_cut(rt, b"E2, 0 1 2 4", &e2, 0b10111, 0, 256)?;
    say_cut(rt, b"E2, none", &e2, 0, 0, 256)?;
    say_cut(rt, b"E2, 0 and 5", &e2, 0b100001, 0, 256)?;
    say_cut(rt, b"E2, 1", &e2, 0b10, 0, 256)
}

// "9 is also given for a selection that isn't 25 bytes long": after the table's own refusals, before 10 and 11.
pub fn sizes_of_selections(rt: &impl Print) -> io::Result<()> {
    let e2 = examples::e2();
    let mut long = [0u8; SELECTION + 1];
    long[0] = 0b11111;
    say_cut_by(rt, b"E2, all, 24 bytes", &e2, &long[0..SELECTION - 1], 256)?;
    say_cut_by(rt, b"E2, all, 25 bytes", &e2, &long[0..SELECTION], 80)?;
    say_cut_by(rt, b"E2, all, 26 bytes", &e2, &long, 256)?;
    say_cut_by(rt, b"E2, all, 26 bytes and no room", &e2, &long, 0)?;
    say_cut_by(rt, b"E2, no byte", &e2, &long[0..0], 256)?;
    say_cut_by(
        rt,
        b"bad mark, no byte",
        &examples::changed(2, MARK_SECOND, 0x57),
        &long[0..0],
        256,
    )
}

// The last bit of a selection names record 199.
pub fn last_bit(rt: &impl Print) -> io::Result<()> {
    let e2 = examples::e2();
    let mut selection = of_two(0b10, 0);
    selection[SELECTION - 1] = 0b1000_0000;
    say_cut_by(rt, b"E2, 1 and 199", &e2, &selection, 256)
}

pub fn of_no_table(rt: &impl Print) -> io::Result<()> {
    let e2 = examples::e2();
    say_cut(rt, b"79 bytes", &e2[0..79], 0, 0, 0)?;
    say_cut(rt, b"no bytes", &e2[0..0], 0, 0, 0)?;
    say_cut(
        rt,
        b"bad mark",
        &examples::changed(2, MARK_SECOND, 0x57),
        0,
        0,
        0,
    )
}

pub fn of_e8(rt: &impl Print) -> io::Result<()> {
    let mut t = [0u8; 12 * SIZE];
    build(rt, b"E8", &mut t, &E8)?;
    say_cut(rt, b"E8, 0 to 4, 6 and 8", &t, 0b0101_1111, 0b1, 256)?;
    say_cut(rt, b"E8, 0 to 4, 7 and 8", &t, 0b1001_1111, 0b1, 256)?;
    say_cut(rt, b"E8, all but 6", &t, 0b1011_1111, 0b1111, 256)
}

pub fn of_e9(rt: &impl Print) -> io::Result<()> {
    let mut t = [0u8; 11 * SIZE];
    build(rt, b"E9", &mut t, &E9)?;
    say_cut(rt, b"E9, 0 2 4 6 9", &t, 0b0101_0101, 0b10, 256)
}
