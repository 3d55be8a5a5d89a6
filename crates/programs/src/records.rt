// Records by their parts.
ghost use Rattle.std.specs.Prelude.{◌≡◌};
ghost use Rattle.events.specs.declared.Event.TheVariants.{Init, Load, Store};
ghost use Rattle.events.specs.declared.Value.TheVariants.{U, Known};

use events::{Event, Order, Record, Value};

// "an Init of thread 0 without parent"
pub fn root() -> Record
    ensures { result ≡ record { thread = 0; parent = None; source = None; event = Init } }
{
    Record {
        thread: 0,
        parent: None,
        source: None,
        event: Event::Init,
    }
}

pub fn init(thread: u8, parent: u8) -> Record
    ensures { result ≡ record { thread = thread; parent = Some parent; source = None; event = Init } }
{
    Record {
        thread,
        parent: Some(parent),
        source: None,
        event: Event::Init,
    }
}

pub fn store(order: Order, thread: u8, parent: u8, location: u8, value: u16) -> Record
    ensures { result ≡ record { thread = thread; parent = Some parent; source = None; event = Store order location (Known value) } }
{
    Record {
        thread,
        parent: Some(parent),
        source: None,
        event: Event::Store {
            order,
            location,
            written: Value::Known(value),
        },
    }
}

// A load of a number.
pub fn load(order: Order, thread: u8, parent: u8, source: u8, location: u8, value: u16) -> Record
    ensures { result ≡ record { thread = thread; parent = Some parent; source = Some source; event = Load order location (Known value) } }
{
    Record {
        thread,
        parent: Some(parent),
        source: Some(source),
        event: Event::Load {
            order,
            location,
            read: Value::Known(value),
        },
    }
}

// A load of u without a source.
pub fn load_u(order: Order, thread: u8, parent: u8, location: u8) -> Record
    ensures { result ≡ record { thread = thread; parent = Some parent; source = None; event = Load order location U } }
{
    Record {
        thread,
        parent: Some(parent),
        source: None,
        event: Event::Load {
            order,
            location,
            read: Value::U,
        },
    }
}
