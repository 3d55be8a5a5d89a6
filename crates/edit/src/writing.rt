// The kept records written out, under their new numbers.
ghost use Rattle.std.specs.Prelude.{◌≡◌, ◌+◌, ◌*◌, ◌≤◌, length};
ghost use Rattle.record.specs.Form.{record_size, part, overwritten};
ghost use Rattle.selections.specs.Selection.{named};
ghost use Rattle.edit.specs.Columns.{number_in, LinkIn, PartLinks, Placing, Writing};
ghost use Rattle.edit.specs.Cut.{renumbered_link, renumbered_bytes, cut_bytes};

use record::places::{NONE, PARENT, SIZE, SOURCE};
use selections::names;

// The byte of a link, as the new number of the same record.
fn relinked(numbers: &[u8], link: u8) -> u8
    requires { LinkIn numbers.now link }
    ensures { result ≡ renumbered_link (number_in numbers.now) link }
{
    if link == NONE {
        NONE
    } else {
        numbers[link as usize]
    }
}

// The sixteen bytes of a kept record.
fn renumbered_bytes(old: &[u8], numbers: &[u8]) -> [u8; SIZE]
    requires { PartLinks old.now numbers.now }
    ensures { result ≡ renumbered_bytes (number_in numbers.now) old.now }
{
    let mut new = [0u8; SIZE];
    new.copy_from_slice(old);
    new[PARENT] = relinked(numbers, old[PARENT]);
    new[SOURCE] = relinked(numbers, old[SOURCE]);
    new
}

// Writes sixteen bytes as record n, and changes no other byte.
fn write_part(out: &mut [u8], n: usize, new: &[u8])
    requires { (record_size * n + record_size ≤ length out.old) × (length new.now ≡ record_size) }
    ensures { out.new ≡ overwritten out.old n new.now }
{
    let at = SIZE * n;
    out[at..at + SIZE].copy_from_slice(new);
}

// Writes record n of the table under its new number.
fn write_record(table: &[u8], n: usize, numbers: &[u8], out: &mut [u8])
    requires { Placing table.now n numbers.now out.old }
    ensures { out.new ≡ overwritten out.old (number_in numbers.now n) (renumbered_bytes (number_in numbers.now) (part table.now n)) }
{
    let at = SIZE * n;
    let new = renumbered_bytes(&table[at..at + SIZE], numbers);
    write_part(out, numbers[n] as usize, &new);
}

// Writes the kept records one after another.
pub fn write_kept(table: &[u8], selection: &[u8], numbers: &[u8], count: usize, out: &mut [u8])
    requires { Writing table.now selection.now numbers.now count out.old }
    ensures { out.new ≡ cut_bytes (named selection.now) table.now count out.old }
{
    for n in 0..count {
        if names(selection, n) {
            write_record(table, n, numbers, out);
        }
    }
}
