// The part of a table that is a record.
ghost use Rattle.std.specs.Prelude.{◌+◌, ◌*◌, ◌≤◌, length};
ghost use Rattle.record.specs.Form.{record_size};
ghost use Rattle.slots.specs.Part.{Part};

use record::places::SIZE;

// The sixteen bytes of record n.
pub fn part_at(table: &[u8], n: usize) -> &[u8]
    requires { record_size * n + record_size ≤ length table.now }
    ensures { Part table.now n result.now }
{
    let at = SIZE * n;
    &table[at..at + SIZE]
}
