// Tests 6 and 7 of a record, to stand as record n, against the n records before it.
ghost use Rattle.std.specs.Prelude.{◌≡◌};
ghost use Rattle.table.specs.Computed.{rooted, stood, misplaced, parent_fault, unfit, source_fault};
ghost use Rattle.table.specs.Events.{events_of};
ghost use Rattle.table.specs.Standing.{AllStand};

use crate::accesses::{is_init, is_u, read_by, same_link, suits, written_by};
use crate::stored::{standing_at, thread_at};
use events::{Record, Value};
use numbers::wide;

// "an Init of thread 0 without parent"
fn is_root(new: Record) -> bool
    ensures { result ≡ rooted new }
{
    is_init(new.event) & ((new.thread == 0) & same_link(new.parent, None))
}

// "an Init's thread has stood in an earlier record"
fn thread_stood(table: &[u8], n: usize, thread: u8) -> bool
    requires { AllStand table.now n }
    ensures { result ≡ stood (events_of table.now).at n thread }
{
    for m in 0..n {
        if thread_at(table, m) == thread {
            return true;
        }
    }
    false
}

// With the parent p: "one not earlier", "a non-Init has another thread than its parent", or an Init's thread has stood.
fn is_misplaced(table: &[u8], n: usize, p: usize, new: Record) -> bool
    requires { AllStand table.now n }
    ensures { result ≡ misplaced (events_of table.now).at n p new }
{
    if p < n {
        if is_init(new.event) {
            return thread_stood(table, n, new.thread);
        }
        return !(thread_at(table, p) == new.thread);
    }
    true
}

// Refusal 6.
pub fn parent_fault(table: &[u8], n: usize, new: Record) -> bool
    requires { AllStand table.now n }
    ensures { result ≡ parent_fault (events_of table.now).at n new }
{
    if n == 0 {
        return !is_root(new);
    }
    match new.parent {
        None => true,
        Some(p) => is_misplaced(table, n, wide(p), new),
    }
}

// Record s is no earlier write of this location, or what it wrote is not what was read.
fn is_unfit(table: &[u8], n: usize, s: usize, location: u8, read: Value) -> bool
    requires { AllStand table.now n }
    ensures { result ≡ unfit (events_of table.now).at n s location read }
{
    if s < n {
        let source = standing_at(table, s);
        return !suits(written_by(source.event), location, read);
    }
    true
}

// Refusal 7.
pub fn source_fault(table: &[u8], n: usize, new: Record) -> bool
    requires { AllStand table.now n }
    ensures { result ≡ source_fault (events_of table.now).at n new }
{
    match (read_by(new.event), new.source) {
        (None, _) => false,
        (Some((_, value)), None) => !is_u(value),
        (Some((location, value)), Some(s)) => is_unfit(table, n, wide(s), location, value),
    }
}
