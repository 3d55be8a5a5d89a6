// Records from scripts: nine characters each, and the last is a space.
// Kind (I, L, S, U), order (n, a, r, b for AR, s), thread, parent, source, location, value read, value written.
// Numbers from 10 on are letters; "-" is for none, and for what a kind lacks; "u" is the value u.
ghost use Rattle.std.specs.Prelude.{◌≡◌, ◌+◌, ◌*◌, ◌/◌, ◌≤◌, length};
ghost use Rattle.record.specs.Form.{record_size};

use crate::records::root;
use events::{Order, Record};
use record::places::{
    FLAGS, INIT, KIND, LOAD, LOCATION, NONE, ORDER, PARENT, READ, SIZE, SOURCE, STORE, THREAD,
    UPDATE, WRITTEN,
};
use record::record_from;

// How many characters name a record.
pub const WIDTH: usize = 9;

fn kind_of(c: u8) -> u8 {
    match c {
        b'L' => LOAD,
        b'S' => STORE,
        b'U' => UPDATE,
        _ => INIT,
    }
}

fn order_of(c: u8) -> u8 {
    match c {
        b'a' => Order::ACQ,
        b'r' => Order::REL,
        b'b' => Order::AR,
        b's' => Order::SC,
        _ => Order::NA,
    }
}

fn digit_of(c: u8) -> u8 {
    if b'A' <= c {
        return c - 55;
    }
    if b'0' <= c {
        return c - 48;
    }
    0
}

fn link_byte(c: u8) -> u8 {
    if c == b'-' { NONE } else { digit_of(c) }
}

fn number_of(c: u8) -> u8 {
    if c == b'u' { 0 } else { digit_of(c) }
}

fn flags_of(read: u8, written: u8) -> u8 {
    if read == b'u' {
        return if written == b'u' { 3 } else { 1 };
    }
    if written == b'u' { 2 } else { 0 }
}

fn record_of(bytes: [u8; SIZE]) -> Record {
    record_from(&bytes)
}

// The record that nine characters name.
pub fn record_named(part: &[u8]) -> Record
    requires { length part.now ≡ 9 }
{
    let mut b = record::bytes_of(root());
    b[KIND] = kind_of(part[0]);
    b[ORDER] = order_of(part[1]);
    b[THREAD] = digit_of(part[2]);
    b[PARENT] = link_byte(part[3]);
    b[SOURCE] = link_byte(part[4]);
    b[LOCATION] = digit_of(part[5]);
    b[FLAGS] = flags_of(part[6], part[7]);
    b[READ] = number_of(part[6]);
    b[WRITTEN] = number_of(part[7]);
    record_of(b)
}

// Record n of a script.
pub fn record_at(script: &[u8], n: usize) -> Record
    requires { 9 * n + 9 ≤ length script.now }
{
    let at = WIDTH * n;
    record_named(&script[at..at + WIDTH])
}

// Writes each record of a script.
pub fn write(script: &[u8], out: &mut [u8])
    requires { record_size * (length script.now / 9) ≤ length out.old }
{
    for n in 0..script.len() / WIDTH {
        slots::write_at(out, n, record_at(script, n));
    }
}
