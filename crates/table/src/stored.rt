// What is read of a record that stands in a table: its thread, its parent, all of it.
ghost use Rattle.std.specs.Prelude.{◌≡◌, ◌+◌, ◌*◌, ◌≤◌, length};
ghost use Rattle.record.specs.Form.{record_size};
ghost use Rattle.table.specs.Events.{record_of, events_of};
ghost use Rattle.table.specs.Standing.{Stands};

use events::{Event, Record};
use record::places::{PARENT, THREAD};
use refusals::Fault;
use slots::part_at;

pub fn thread_at(table: &[u8], n: usize) -> u8
    requires { Stands table.now n }
    ensures { result ≡ ((events_of table.now).at n).thread }
{
    let r = part_at(table, n);
    r[THREAD]
}

pub fn parent_at(table: &[u8], n: usize) -> Option<u8>
    requires { Stands table.now n }
    ensures { result ≡ ((events_of table.now).at n).parent }
{
    let r = part_at(table, n);
    record::link_from(r[PARENT])
}

fn record_of(d: Result<Record, Fault>) -> Record
    ensures { result ≡ record_of d }
{
    match d {
        Ok(r) => r,
        Err(_) => Record {
            thread: 0,
            parent: None,
            source: None,
            event: Event::Init,
        },
    }
}

// Record n.
pub fn record_at(table: &[u8], n: usize) -> Record
    requires { record_size * n + record_size ≤ length table.now }
    ensures { result ≡ (events_of table.now).at n }
{
    record_of(slots::read_at(table, n))
}

// Record n, which passed the tests 2 to 5: they are not made again.
pub fn standing_at(table: &[u8], n: usize) -> Record
    requires { Stands table.now n }
    ensures { result ≡ (events_of table.now).at n }
{
    record::record_from(part_at(table, n))
}
