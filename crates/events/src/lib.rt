// The events of a table as values: orders, values, events, links and records.
#![tactic(auto)]

ghost use Rattle.std.specs.Prelude.{◌≡◌};
ghost use Rattle.events.specs.Words.{acquires, releases, code_of};

// The five orders. NA: not atomic.
#[derive(Clone, Copy, Debug, PartialEq, Eq)]
pub enum Order {
    Na,
    Acq,
    Rel,
    Ar,
    Sc,
}

impl Order {
    // The byte code of each.
    pub const NA: u8 = 0;

    pub const ACQ: u8 = 1;

    pub const REL: u8 = 2;

    pub const AR: u8 = 3;

    pub const SC: u8 = 4;

    pub fn acquires(self) -> bool
        ensures { result ≡ acquires self }
    {
        matches!(self, Order::Acq | Order::Ar | Order::Sc)
    }

    pub fn releases(self) -> bool
        ensures { result ≡ releases self }
    {
        matches!(self, Order::Rel | Order::Ar | Order::Sc)
    }

    pub fn code(self) -> u8
        ensures { result ≡ code_of self }
    {
        match self {
            Order::Na => Order::NA,
            Order::Acq => Order::ACQ,
            Order::Rel => Order::REL,
            Order::Ar => Order::AR,
            Order::Sc => Order::SC,
        }
    }
}

// u (LLVM's undef), or a known number.
#[derive(Clone, Copy, Debug, PartialEq, Eq)]
pub enum Value {
    U,
    Known(u16),
}

// What happened: each value is held inside the load, store or update it belongs to.
#[derive(Clone, Copy, Debug, PartialEq, Eq)]
pub enum Event {
    Init,
    Load {
        order: Order,
        location: u8,
        read: Value,
    },
    Store {
        order: Order,
        location: u8,
        written: Value,
    },
    Update {
        order: Order,
        location: u8,
        read: Value,
        written: Value,
    },
}

// One line of a table: an event, its thread, and who its parent and its source are.
#[derive(Clone, Copy, Debug, PartialEq, Eq)]
pub struct Record {
    pub thread: u8,
    // the parent's number, or none
    pub parent: Option<u8>,
    // the source's number, or none
    pub source: Option<u8>,
    pub event: Event,
}
