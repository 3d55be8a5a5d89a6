// A record as its sixteen bytes.
ghost use Rattle.std.specs.Prelude.{◌≡◌, ◌/◌, ◌%◌};
ghost use Rattle.record.specs.Form.{columns_of, link_byte, number_of, flags_of, encode};

use crate::places::{INIT, LOAD, NONE, SIZE, STORE, UPDATE};
use events::{Event, Order, Record, Value};

// What the bytes of an event hold, each column what it rests with where the kind lacks it.
#[derive(Drop)]
struct Columns {
    kind: u8,
    order: Order,
    location: u8,
    read: Value,
    written: Value,
}

fn columns_of(e: Event) -> Columns
    ensures { result ≡ columns_of e }
{
    match e {
        Event::Init => Columns {
            kind: INIT,
            order: Order::Na,
            location: 0,
            read: Value::Known(0),
            written: Value::Known(0),
        },
        Event::Load {
            order,
            location,
            read,
        } => Columns {
            kind: LOAD,
            order,
            location,
            read,
            written: Value::Known(0),
        },
        Event::Store {
            order,
            location,
            written,
        } => Columns {
            kind: STORE,
            order,
            location,
            read: Value::Known(0),
            written,
        },
        Event::Update {
            order,
            location,
            read,
            written,
        } => Columns {
            kind: UPDATE,
            order,
            location,
            read,
            written,
        },
    }
}

fn link_byte(l: Option<u8>) -> u8
    ensures { result ≡ link_byte l }
{
    l.unwrap_or(NONE)
}

fn number_of(v: Value) -> u16
    ensures { result ≡ number_of v }
{
    match v {
        Value::U => 0,
        Value::Known(n) => n,
    }
}

fn flags_of(read: Value, written: Value) -> u8
    ensures { result ≡ flags_of read written }
{
    match (read, written) {
        (Value::U, Value::U) => 3,
        (Value::U, Value::Known(_)) => 1,
        (Value::Known(_), Value::U) => 2,
        (Value::Known(_), Value::Known(_)) => 0,
    }
}

fn low(n: u16) -> u8
    ensures { result ≡ n % 256 }
{
    (n % 256) as u8
}

fn high(n: u16) -> u8
    ensures { result ≡ n / 256 }
{
    (n / 256) as u8
}

pub fn bytes_of(r: Record) -> [u8; SIZE]
    ensures { result ≡ encode r }
{
    let Record {
        thread,
        parent,
        source,
        event,
    } = r;
    let Columns {
        kind,
        order,
        location,
        read,
        written,
    } = columns_of(event);
    let x = number_of(read);
    let y = number_of(written);
    [
        0x45,
        0x56,
        kind,
        order.code(),
        thread,
        link_byte(parent),
        link_byte(source),
        location,
        flags_of(read, written),
        0,
        low(x),
        high(x),
        low(y),
        high(y),
        0,
        0,
    ]
}
