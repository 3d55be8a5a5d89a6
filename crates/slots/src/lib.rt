// A record at its place in a table: its bytes, read and written.
#![tactic(auto)]

mod parts;

ghost use Rattle.std.specs.Prelude.{◌≡◌, ◌+◌, ◌*◌, ◌≤◌, length};
ghost use Rattle.record.specs.Form.{record_size, decode, part, encode, overwritten};

use events::Record;
pub use parts::part_at;
use record::places::SIZE;
use record::{bytes_of, read_part};
use refusals::Fault;

// Record n of a table.
pub fn read_at(table: &[u8], n: usize) -> Result<Record, Fault>
    requires { record_size * n + record_size ≤ length table.now }
    ensures { result ≡ decode (part table.now n) }
{
    let at = SIZE * n;
    read_part(&table[at..at + SIZE])
}

// Writes a record at its place, and changes no other byte.
pub fn write_at(table: &mut [u8], n: usize, r: Record)
    requires { record_size * n + record_size ≤ length table.old }
    ensures { table.new ≡ overwritten table.old n (encode r) }
{
    let new = bytes_of(r);
    let start = SIZE * n;
    table[start..start + SIZE].copy_from_slice(&new);
}
