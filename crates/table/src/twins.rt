// Test 8 of a record, to stand as record n: against its siblings, the earlier records with its parent.
ghost use Rattle.std.specs.Prelude.{◌≡◌, ◌+◌};
ghost use Rattle.table.specs.Computed.{twinned, twin_fault};
ghost use Rattle.table.specs.Events.{events_of};
ghost use Rattle.table.specs.Siblings.{twinned_sibling, Family, Kept};
ghost use Rattle.table.specs.Standing.{Stands, AllStand};

use crate::accesses::{branches, read_by, same_link};
use crate::stored::{parent_at, standing_at, thread_at};
use events::Record;
use numbers::wide;
use record::places::NONE;

// Record m, a sibling, "has the same .. thread, and the two are not both reads of one location with different read values".
fn is_sibling_twin(table: &[u8], m: usize, new: Record) -> bool
    requires { Stands table.now m }
    ensures { result ≡ twinned_sibling ((events_of table.now).at m) new }
{
    if thread_at(table, m) == new.thread {
        let other = standing_at(table, m);
        return !branches(read_by(other.event), read_by(new.event));
    }
    false
}

// Record m "has the same parent", and is a twin.
fn is_twin(table: &[u8], m: usize, new: Record) -> bool
    requires { Stands table.now m }
    ensures { result ≡ twinned ((events_of table.now).at m) new }
{
    if same_link(parent_at(table, m), new.parent) {
        return is_sibling_twin(table, m, new);
    }
    false
}

// Refusal 8, looked for among all earlier records: for a record without columns to find its siblings by.
fn twin_below(table: &[u8], n: usize, new: Record) -> bool
    requires { AllStand table.now n }
    ensures { result ≡ twin_fault (events_of table.now).at n new }
{
    let mut found = false;
    for m in 0..n {
        found = found | is_twin(table, m, new);
    }
    found
}

// Refusal 8, looked for among the siblings, from the youngest on.
fn twin_among(table: &[u8], n: usize, older: &[u8], youngest: u8, new: Record) -> bool
    requires { Family table.now n older.now youngest new }
    ensures { result ≡ twin_fault (events_of table.now).at n new }
{
    let mut found = false;
    let mut sibling = youngest;
    while sibling != NONE {
        found = found | is_sibling_twin(table, wide(sibling), new);
        sibling = older[wide(sibling)];
    }
    found
}

// Refusal 8.
pub fn twin_fault(table: &[u8], n: usize, last: &[u8], older: &[u8], new: Record) -> bool
    requires { Kept table.now n last.now older.now }
    ensures { result ≡ twin_fault (events_of table.now).at n new }
{
    match new.parent {
        None => twin_below(table, n, new),
        Some(byte) => {
            let p = wide(byte);
            if (p < last.len()) & (n < older.len()) {
                return twin_among(table, n, older, last[p], new);
            }
            twin_below(table, n, new)
        }
    }
}

// From here on record n is the last child of its parent, and what was it is the child before.
pub fn keep_child(table: &[u8], n: usize, last: &mut [u8], older: &mut [u8])
    requires stands { Stands table.now n }
    requires kept { Kept table.now n last.old older.old }
    ensures { Kept table.now (n + 1) last.new older.new }
{
    match parent_at(table, n) {
        None => {}
        Some(byte) => {
            let p = wide(byte);
            if (p < last.len()) & (n < older.len()) {
                older[n] = last[p];
                last[p] = n as u8;
            }
        }
    }
}
