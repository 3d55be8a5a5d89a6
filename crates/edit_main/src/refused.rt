// Appends that are refused, and the least change that makes them good.
ghost use Rattle.std.specs.Prelude.{◌≡◌, ◌≤◌, length};

use crate::appends::{say_line, say_within};
use events::{Order, Record};
use limits::LIMIT;
use programs::records::{load, store};
use programs::script::record_named;
use programs::{large, say};
use record::places::{MARK_SECOND, SIZE};
use std::io;

// An append to the first `room` bytes of a table, and whether it changed any byte of it.
fn try_append(
    rt: &impl Print,
    what: &[u8],
    table: [u8; 96],
    room: usize,
    used: usize,
    new: Record,
) -> io::Result<()>
    requires { room ≤ 96 }
{
    let mut t = table;
    say_within(rt, what, &mut t, room, used, new)?;
    if table == t {
        return say::text(rt, b", bytes as before\n");
    }
    say::text(rt, b", bytes changed\n")
}

// The event of a script as record 5 of E2.
fn try_event(rt: &impl Print, what: &[u8], t: [u8; 96], script: &[u8]) -> io::Result<()>
    requires { length script.now ≡ 9 }
{
    try_append(rt, what, t, 96, 5, record_named(script))
}

pub fn events(rt: &impl Print, t: [u8; 96]) -> io::Result<()> {
    try_event(rt, b"load REL", t, b"Lr04301- ")?;
    try_event(rt, b"store with a source", t, b"Sn0410-1 ")?;
    try_event(rt, b"thread 16", t, b"SnG4-0-1 ")?;
    try_event(rt, b"location 32", t, b"Sn04-W-1 ")?;
    try_event(rt, b"no parent", t, b"In1----- ")?;
    try_event(rt, b"parent itself", t, b"In15---- ")?;
    try_event(rt, b"thread stood", t, b"In04---- ")?;
    try_event(rt, b"another thread", t, b"Sn14-0-1 ")?;
    try_event(rt, b"another value", t, b"La04101- ")?;
    try_event(rt, b"source a load", t, b"La04200- ")?;
    try_event(rt, b"twin of 3", t, b"Sn02-0-1 ")
}

// The mark of record 2 is wrong.
fn bad_mark(table: [u8; 96]) -> [u8; 96] {
    let mut t = table;
    t[2 * SIZE + MARK_SECOND] = 0x57;
    t
}

pub fn uses(rt: &impl Print, t: [u8; 96], new: Record) -> io::Result<()> {
    try_append(rt, b"201 in use", t, 96, LIMIT + 1, new)?;
    try_append(rt, b"7 in use of 6", t, 96, 7, new)?;
    try_append(rt, b"6 in use, the last no record", t, 96, 6, new)?;
    try_append(rt, b"bad mark", bad_mark(t), 96, 5, new)?;
    try_append(rt, b"80 bytes", t, 80, 5, new)?;
    try_append(rt, b"95 bytes", t, 95, 5, new)?;
    try_append(rt, b"96 bytes", t, 96, 5, new)
}

// Appends to a table that has as many records as it may have, or one less.
pub fn full(rt: &impl Print) -> io::Result<()> {
    let mut t = [0u8; SIZE * LIMIT + SIZE];
    large::write(large::chain, 200, &mut t);
    let new = store(Order::Na, 0, 199, 31, 1);
    say_line(rt, b"200 in use", &mut t, LIMIT, new)?;
    say_within(rt, b"200 in use, no room", &mut t, SIZE * LIMIT, LIMIT, new)?;
    say::text(rt, b"\n")?;
    say_within(
        rt,
        b"199 in use, no room",
        &mut t,
        SIZE * LIMIT - 1,
        LIMIT - 1,
        new,
    )?;
    say::text(rt, b"\n")?;
    say_line(
        rt,
        b"199 in use",
        &mut t,
        LIMIT - 1,
        store(Order::Sc, 0, 198, 31, 7),
    )?;
    say_line(
        rt,
        b"200 in use, new one wrong",
        &mut t,
        LIMIT,
        load(Order::Rel, 16, 99, 99, 99, 1),
    )
}
