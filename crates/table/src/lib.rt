// A table of records as bytes: its test (refusals 1 to 8, each with its place), and its records, read.
#![tactic(auto)]

mod accesses;
mod faults;
mod stored;
mod twins;

ghost use Rattle.std.specs.Prelude.{◌≡◌, ◌++◌, ◌*◌, ◌≤◌, length, take};
ghost use Rattle.record.specs.Form.{record_size, encode};
ghost use Rattle.table.specs.Computed.{checked};
ghost use Rattle.table.specs.Events.{events_of};
ghost use Rattle.table.specs.New.{PassingUse};
ghost use Rattle.table.specs.Siblings.{Kept};
ghost use Rattle.table.specs.Test.{length_ok, CheckAnswer, RecordsAnswer, TestAnswer};

use events::Record;
use limits::LIMIT;
use record::places::{NONE, SIZE};
use refusals::{Fault, Refusal};
pub use stored::record_at;

// How many records the columns have room for: as many as a byte can number beside `NONE`.
const KEPT: usize = 255;

// Tests 6 to 8, "in order within one; the first fault is the answer".
fn check_event(table: &[u8], n: usize, last: &[u8], older: &[u8], new: Record) -> Result<(), Fault>
    requires { Kept table.now n last.now older.now }
    ensures { result ≡ checked (events_of table.now).at n (Ok new) }
{
    if faults::parent_fault(table, n, new) {
        return Err(Fault::Parent);
    }
    if faults::source_fault(table, n, new) {
        return Err(Fault::Source);
    }
    if twins::twin_fault(table, n, last, older, new) {
        return Err(Fault::Twin);
    }
    Ok(())
}

// The test of what was read as record n.
fn check_decoded(
    table: &[u8],
    n: usize,
    last: &[u8],
    older: &[u8],
    d: Result<Record, Fault>,
) -> Result<(), Fault>
    requires { Kept table.now n last.now older.now }
    ensures { result ≡ checked (events_of table.now).at n d }
{
    check_event(table, n, last, older, d?)
}

// The test of a record that is to stand after the first n, "as if its bytes were read".
pub fn check_new(table: &[u8], n: usize, r: Record) -> Result<(), Fault>
    requires { PassingUse table.now n }
    ensures { CheckAnswer (take (record_size * n) table.now ++ encode r) n result }
{
    let new = record::bytes_of(r);
    // For one record no columns are made: it is held against every earlier one.
    let none: [u8; 0] = [];
    check_decoded(table, n, &none, &none, record::read_part(&new))
}

// The test of the first `count` records.
pub fn test_records(table: &[u8], count: usize) -> Result<usize, Refusal>
    requires { record_size * count ≤ length table.now }
    ensures { RecordsAnswer (take (record_size * count) table.now) result }
{
    let mut last = [NONE; KEPT];
    let mut older = [NONE; KEPT];
    for n in 0..count {
        match check_decoded(table, n, &last, &older, slots::read_at(table, n)) {
            Ok(()) => twins::keep_child(table, n, &mut last, &mut older),
            Err(f) => return Err(Refusal::Record(f, n)),
        }
    }
    Ok(count)
}

// Whether so many bytes can be a table: refusal 1 is not given.
pub fn length_ok(len: usize) -> bool
    ensures { result ≡ length_ok len }
{
    !(len == 0) & ((len % SIZE == 0) & (len <= SIZE * LIMIT))
}

// The test of a table.
pub fn test(table: &[u8]) -> Result<usize, Refusal>
    ensures { TestAnswer table.now result }
{
    let len = table.len();
    if !length_ok(len) {
        return Err(Refusal::Length);
    }
    test_records(table, len / SIZE)
}
