// The tests 2 to 5 on the sixteen bytes of a record. Each looks at its bytes from the least upward.
ghost use Rattle.std.specs.Prelude.{◌≡◌, length};
ghost use Rattle.record.specs.Form.{record_size, reads_kind, writes_kind, read_u, written_u, marked, in_row, flags_rest, rests_as, least_restless, record_from, decode, unless_faulty};

use crate::places::{
    FLAGS, INIT, KIND, LOAD, LOCATION, MARK, MARK_SECOND, NONE, ORDER, READ, READ_HIGH, SIZE,
    SOURCE, STORE, THREAD, UPDATE, WRITTEN, WRITTEN_HIGH,
};
use refusals::Fault;

// "The kind and order table, one row for each kind", as bits of one word: five for each kind, the last five for the Init, and among them
// SC, AR, REL, ACQ, NA. A table of bytes would be laid down anew for each record.
const ALLOWED: u32 = 0b11000_10101_10011_00001;

// Refusal 2 is not given.
fn marked_at(b: &[u8]) -> bool
    requires { length b.now ≡ record_size }
    ensures { result ≡ marked b.now }
{
    (b[MARK] == 0x45) & (b[MARK_SECOND] == 0x56)
}

// Refusal 3 is not given.
fn in_row(kind: u8, order: u8) -> bool
    ensures { result ≡ in_row kind order }
{
    if 4 <= kind {
        return false;
    }
    if 5 <= order {
        return false;
    }
    (ALLOWED >> (5 * kind + order)) % 2 == 1
}

fn reads(kind: u8) -> bool
    ensures { result ≡ reads_kind kind }
{
    (kind == LOAD) | (kind == UPDATE)
}

fn writes(kind: u8) -> bool
    ensures { result ≡ writes_kind kind }
{
    (kind == STORE) | (kind == UPDATE)
}

// "1 if the value read is u, plus 2 if the value written is u"
pub fn read_u(flags: u8) -> bool
    ensures { result ≡ read_u flags }
{
    flags % 2 == 1
}

pub fn written_u(flags: u8) -> bool
    ensures { result ≡ written_u flags }
{
    2 <= flags
}

fn flags_rest(kind: u8, flags: u8) -> bool
    ensures { result ≡ flags_rest kind flags }
{
    (flags <= 3) & ((reads(kind) | !read_u(flags)) & (writes(kind) | !written_u(flags)))
}

// Byte i of a record of this kind with these flags holds what it should where it rests.
fn rests(kind: u8, flags: u8, i: usize, byte: u8) -> bool
    ensures { result ≡ rests_as kind flags i byte }
{
    let reads_number = reads(kind) & !read_u(flags);
    let writes_number = writes(kind) & !written_u(flags);
    match i {
        SOURCE => reads(kind) | (byte == NONE),
        LOCATION => !(kind == INIT) | (byte == 0),
        FLAGS => flags_rest(kind, flags),
        READ => reads_number | (byte == 0),
        READ_HIGH => reads_number | (byte == 0),
        WRITTEN => writes_number | (byte == 0),
        WRITTEN_HIGH => writes_number | (byte == 0),
        _ => byte == 0,
    }
}

// The least byte, from the source on, that does not rest and should; the size of a record if there is none.
fn least_restless(b: &[u8]) -> usize
    requires { length b.now ≡ record_size }
    ensures { result ≡ least_restless b.now }
{
    for i in SOURCE..SIZE {
        if !rests(b[KIND], b[FLAGS], i, b[i]) {
            return i;
        }
    }
    SIZE
}

// "numbers 2 to 8 in order within one; the first fault is the answer": 2 to 5.
pub fn first_fault(b: &[u8]) -> Result<(), Fault>
    requires { length b.now ≡ record_size }
    ensures { decode b.now ≡ unless_faulty result (record_from b.now) }
{
    if !marked_at(b) {
        return Err(Fault::Mark);
    }
    if 4 <= b[KIND] {
        return Err(Fault::Kind);
    }
    if !in_row(b[KIND], b[ORDER]) {
        return Err(Fault::Order);
    }
    let restless = least_restless(b);
    if restless < SIZE {
        return Err(Fault::Rest(restless));
    }
    if 16 <= b[THREAD] {
        return Err(Fault::Thread);
    }
    if 32 <= b[LOCATION] {
        return Err(Fault::Location);
    }
    Ok(())
}
