// What the relations ask of the records of a sound table, read once into columns: a byte for each record. Nothing above reads the table's bytes.
#![tactic(auto)]

ghost use Rattle.std.specs.Prelude.{◌≡◌, ◌<◌};
ghost use Rattle.record.specs.Form.{order_byte, part};
ghost use Rattle.table.specs.Events.{events_of};
ghost use Rattle.facts.specs.Sound.{Counted};
ghost use Rattle.columns.specs.Columns.{Columns, Rest};
ghost use Rattle.columns.specs.Lent.{Lent};
ghost use Rattle.columns.specs.Codes.{place_from, arm_from, acquires_code, sync_from};

use facts::byte;
use limits::LIMIT;
use numbers::wide;
use record::places::{INIT, KIND, LOCATION, NONE, ORDER, PARENT, SOURCE};

// The place of an Init, which has no location.
pub const NOWHERE: u8 = 32;

// The location of a record; an Init has none.
fn place_from(kind: u8, location: u8) -> u8
    ensures { result ≡ place_from kind location }
{
    if kind == INIT { NOWHERE } else { location }
}

// The parent of a record that can be an arm of a branch.
fn arm_from(kind: u8, parent: u8) -> u8
    ensures { result ≡ arm_from kind parent }
{
    if kind == INIT { NONE } else { parent }
}

// Whether the order with this code acquires: 1, 3 or 4.
fn acquires(order: u8) -> bool
    ensures { result ≡ acquires_code order }
{
    (order == 1) | (3 <= order)
}

// "from a releasing source to an acquiring read of it": the source of b, which has this source and this order, if it is so.
fn sync_of(table: &[u8], n: usize, b: usize, source: u8, order: u8) -> u8
    requires { Counted table.now n × (b < n) }
    ensures { result ≡ sync_from b source order (order_byte (part table.now source)) }
{
    let s = wide(source);
    if s < b {
        if acquires(order) & (2 <= byte(table, s, ORDER)) {
            return source;
        }
    }
    NONE
}

// What the relations ask of the records: a byte for each, and 0 past the records that there are.
#[derive(Drop)]
pub struct Fields {
    pub parent: [u8; LIMIT],
    pub arm: [u8; LIMIT],
    pub source: [u8; LIMIT],
    pub sync: [u8; LIMIT],
    pub place: [u8; LIMIT],
    pub kind: [u8; LIMIT],
    pub order: [u8; LIMIT],
}

// The columns, lent: a byte for each record, at least.
#[derive(Clone, Copy)]
pub struct View<'a> {
    pub parent: &'a [u8],
    pub arm: &'a [u8],
    pub source: &'a [u8],
    pub sync: &'a [u8],
    pub place: &'a [u8],
    pub kind: &'a [u8],
    pub order: &'a [u8],
}

impl Fields {
    // All columns, lent.
    pub fn view(&self) -> View<'_>
        ensures { Lent self.now result }
    {
        View {
            parent: &self.parent,
            arm: &self.arm,
            source: &self.source,
            sync: &self.sync,
            place: &self.place,
            kind: &self.kind,
            order: &self.order,
        }
    }
}

// All columns of a sound table, record by record.
pub fn read(table: &[u8], n: usize) -> Fields
    requires { Counted table.now n }
    ensures columns { Columns (events_of table.now) n result.parent result.arm result.source result.sync result.place result.kind result.order }
    ensures rest { Rest n result.parent result.arm result.source result.sync result.place result.kind result.order }
{
    let mut parent = [0u8; LIMIT];
    let mut arm = [0u8; LIMIT];
    let mut source = [0u8; LIMIT];
    let mut sync = [0u8; LIMIT];
    let mut place = [0u8; LIMIT];
    let mut kind = [0u8; LIMIT];
    let mut order = [0u8; LIMIT];
    for b in 0..n {
        let k = byte(table, b, KIND);
        let o = byte(table, b, ORDER);
        let p = byte(table, b, PARENT);
        let s = byte(table, b, SOURCE);
        let x = byte(table, b, LOCATION);
        parent[b] = p;
        arm[b] = arm_from(k, p);
        source[b] = s;
        sync[b] = sync_of(table, n, b, s, o);
        place[b] = place_from(k, x);
        kind[b] = k;
        order[b] = o;
    }
    Fields {
        parent,
        arm,
        source,
        sync,
        place,
        kind,
        order,
    }
}
