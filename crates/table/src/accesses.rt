// What tests 6 to 8 ask of one or two events, values and links.
ghost use Rattle.std.specs.Prelude.{◌≡◌};
ghost use Rattle.events.specs.Words.{is_init};
ghost use Rattle.table.specs.Computed.{same_link, read_by, written_by, is_u, same_value, agrees, suits, branches};

use events::{Event, Value};

// Where a value was read or written, and which; none where nothing was.
pub type Access = Option<(u8, Value)>;

pub fn is_init(e: Event) -> bool
    ensures { result ≡ is_init e }
{
    matches!(e, Event::Init)
}

// "Loads and updates are reads"
pub fn read_by(e: Event) -> Access
    ensures { result ≡ read_by e }
{
    match e {
        Event::Load { location, read, .. } | Event::Update { location, read, .. } => {
            Some((location, read))
        }
        Event::Init | Event::Store { .. } => None,
    }
}

// "stores and updates are writes"
pub fn written_by(e: Event) -> Access
    ensures { result ≡ written_by e }
{
    match e {
        Event::Store {
            location,
            written,
            ..
        }
        | Event::Update {
            location,
            written,
            ..
        } => Some((location, written)),
        Event::Init | Event::Load { .. } => None,
    }
}

pub fn is_u(v: Value) -> bool
    ensures { result ≡ is_u v }
{
    v == Value::U
}

pub fn same_link(l: Option<u8>, m: Option<u8>) -> bool
    ensures { result ≡ same_link l m }
{
    l == m
}

// "u differs from every number"
fn same_value(v: Value, w: Value) -> bool
    ensures { result ≡ same_value v w }
{
    v == w
}

// The value read is u, or it is the known value written.
fn agrees(read: Value, written: Value) -> bool
    ensures { result ≡ agrees read written }
{
    (read == Value::U) | (read == written)
}

// What was written may have been read at `location` with the value `read`.
pub fn suits(written: Access, location: u8, read: Value) -> bool
    ensures { result ≡ suits written location read }
{
    match written {
        None => false,
        Some((at, value)) => (at == location) & agrees(read, value),
    }
}

// "both reads of one location with different read values"
pub fn branches(a: Access, b: Access) -> bool
    ensures { result ≡ branches a b }
{
    match (a, b) {
        (Some((x, v)), Some((y, w))) => (x == y) & !same_value(v, w),
        _ => false,
    }
}
