// What the relations ask of one record of a sound table, read in place: no record is decoded again.
#![tactic(auto)]

ghost use Rattle.std.specs.Prelude.{◌≡◌, ◌<◌};
ghost use Rattle.events.specs.Words.{is_read, is_write, is_update, is_na, is_sc, order_of, acquires, releases, at_one_location};
ghost use Rattle.record.specs.Form.{record_size, byte_at, part};
ghost use Rattle.table.specs.Events.{events_of};
ghost use Rattle.facts.specs.Sound.{One, Two};

use events::Order;
use record::places::{
    INIT, KIND, LOAD, LOCATION, ORDER, PARENT, SIZE, SOURCE, STORE, THREAD, UPDATE,
};
use record::{link_from, order_from};

// Byte i of record n.
pub fn byte(table: &[u8], n: usize, i: usize) -> u8
    requires { One table.now n × (i < record_size) }
    ensures { result ≡ byte_at (part table.now n) i }
{
    table[SIZE * n + i]
}

// The parent of record n.
pub fn parent(table: &[u8], n: usize) -> Option<u8>
    requires { One table.now n }
    ensures { result ≡ ((events_of table.now).at n).parent }
{
    link_from(byte(table, n, PARENT))
}

// The source of record n.
pub fn source(table: &[u8], n: usize) -> Option<u8>
    requires { One table.now n }
    ensures { result ≡ ((events_of table.now).at n).source }
{
    link_from(byte(table, n, SOURCE))
}

// The thread of record n.
pub fn thread(table: &[u8], n: usize) -> u8
    requires { One table.now n }
    ensures { result ≡ ((events_of table.now).at n).thread }
{
    byte(table, n, THREAD)
}

// Whether record n reads: a load or an update.
pub fn reads(table: &[u8], n: usize) -> bool
    requires { One table.now n }
    ensures { result ≡ is_read ((events_of table.now).at n).event }
{
    let kind = byte(table, n, KIND);
    (kind == LOAD) | (kind == UPDATE)
}

// Whether record n writes: a store or an update.
pub fn writes(table: &[u8], n: usize) -> bool
    requires { One table.now n }
    ensures { result ≡ is_write ((events_of table.now).at n).event }
{
    let kind = byte(table, n, KIND);
    (kind == STORE) | (kind == UPDATE)
}

// Whether record n is an update.
pub fn updates(table: &[u8], n: usize) -> bool
    requires { One table.now n }
    ensures { result ≡ is_update ((events_of table.now).at n).event }
{
    byte(table, n, KIND) == UPDATE
}

// The order of record n; an Init's is NA.
fn order(table: &[u8], n: usize) -> Order
    requires { One table.now n }
    ensures { result ≡ order_of ((events_of table.now).at n).event }
{
    order_from(byte(table, n, ORDER))
}

// Whether the order of record n is NA.
pub fn not_atomic(table: &[u8], n: usize) -> bool
    requires { One table.now n }
    ensures { result ≡ is_na (order_of ((events_of table.now).at n).event) }
{
    order(table, n).code() == Order::NA
}

// Whether the order of record n is SC.
pub fn sequential(table: &[u8], n: usize) -> bool
    requires { One table.now n }
    ensures { result ≡ is_sc (order_of ((events_of table.now).at n).event) }
{
    order(table, n).code() == Order::SC
}

// Whether the order of record n acquires.
pub fn acquiring(table: &[u8], n: usize) -> bool
    requires { One table.now n }
    ensures { result ≡ acquires (order_of ((events_of table.now).at n).event) }
{
    order(table, n).acquires()
}

// Whether the order of record n releases.
pub fn releasing(table: &[u8], n: usize) -> bool
    requires { One table.now n }
    ensures { result ≡ releases (order_of ((events_of table.now).at n).event) }
{
    order(table, n).releases()
}

// Whether records a and b have one location; an Init has none.
pub fn same_location(table: &[u8], a: usize, b: usize) -> bool
    requires { Two table.now a b }
    ensures { result ≡ at_one_location ((events_of table.now).at a).event ((events_of table.now).at b).event }
{
    let located = !(byte(table, a, KIND) == INIT) & !(byte(table, b, KIND) == INIT);
    located & (byte(table, a, LOCATION) == byte(table, b, LOCATION))
}
