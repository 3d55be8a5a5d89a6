// A selection of a table's records, as bytes: the one place that knows how it is given.
#![tactic(auto)]

ghost use Rattle.std.specs.Prelude.{◌≡◌, ℕ, ◌*◌, ◌<◌, ◌≤◌, T, length};
ghost use Rattle.laws.specs.Says.{Says};
ghost use Rattle.selections.specs.Selection.{selection_size, named, Refused9};

use limits::LIMIT;

// How many bytes a selection has: a bit for each record that a table can have.
pub const SELECTION: usize = (LIMIT + 7) / 8;

// Whether the selection names record n: "bit n mod 8 of byte n div 8".
pub fn names(selection: &[u8], n: usize) -> bool
    requires { n < 8 * length selection.now }
    ensures { result ≡ named selection.now n }
{
    (selection[n / 8] >> (n % 8)) % 2 == 1
}

// Whether it names a record at or past `from`.
fn names_past(selection: &[u8], from: usize) -> bool
    requires { length selection.now ≡ selection_size }
    ensures { Says result ((n : ℕ) × ((from ≤ n) × T (named selection.now n))) }
{
    let mut found = false;
    for n in 0..8 * SELECTION {
        found = found | ((from <= n) & names(selection, n));
    }
    found
}

// Whether the selection is refused with 9, for a table of `count` records.
pub fn refused(selection: &[u8], count: usize) -> bool
    ensures { Says result (Refused9 selection.now count) }
{
    if selection.len() == SELECTION {
        return !names_past(selection, 0) | names_past(selection, count);
    }
    true
}
