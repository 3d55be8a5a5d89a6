// A record out of its sixteen bytes, whether or not they pass the tests.
ghost use Rattle.std.specs.Prelude.{◌≡◌, ◌+◌, ◌*◌, length};
ghost use Rattle.record.specs.Form.{record_size, order_from, link_from, value_from, event_from, record_from};

use crate::places::{
    FLAGS, KIND, LOAD, LOCATION, NONE, ORDER, PARENT, READ, READ_HIGH, SOURCE, STORE, THREAD,
    UPDATE, WRITTEN, WRITTEN_HIGH,
};
use crate::rules;
use events::{Event, Order, Record, Value};

pub fn order_from(code: u8) -> Order
    ensures { result ≡ order_from code }
{
    match code {
        Order::ACQ => Order::Acq,
        Order::REL => Order::Rel,
        Order::AR => Order::Ar,
        Order::SC => Order::Sc,
        _ => Order::Na,
    }
}

// The link that a byte is.
pub fn link_from(byte: u8) -> Option<u8>
    ensures { result ≡ link_from byte }
{
    if byte == NONE { None } else { Some(byte) }
}

// Two bytes as a number, low byte first.
pub fn word_of(low: u8, high: u8) -> u16
    ensures { result ≡ low + 256 * high }
{
    u16::from_le_bytes([low, high])
}

fn value_from(u: bool, number: u16) -> Value
    ensures { result ≡ value_from u number }
{
    if u { Value::U } else { Value::Known(number) }
}

fn event_from(kind: u8, order: Order, location: u8, read: Value, written: Value) -> Event
    ensures { result ≡ event_from kind order location read written }
{
    match kind {
        LOAD => Event::Load {
            order,
            location,
            read,
        },
        STORE => Event::Store {
            order,
            location,
            written,
        },
        UPDATE => Event::Update {
            order,
            location,
            read,
            written,
        },
        _ => Event::Init,
    }
}

pub fn record_from(b: &[u8]) -> Record
    requires { length b.now ≡ record_size }
    ensures { result ≡ record_from b.now }
{
    let flags = b[FLAGS];
    let read = value_from(rules::read_u(flags), word_of(b[READ], b[READ_HIGH]));
    let written = value_from(
        rules::written_u(flags),
        word_of(b[WRITTEN], b[WRITTEN_HIGH]),
    );
    let event = event_from(b[KIND], order_from(b[ORDER]), b[LOCATION], read, written);
    Record {
        thread: b[THREAD],
        parent: link_from(b[PARENT]),
        source: link_from(b[SOURCE]),
        event,
    }
}
