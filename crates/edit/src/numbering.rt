// The new number of each record: how many records before it are kept.
ghost use Rattle.std.specs.Prelude.{◌≡◌, ◌+◌, ◌<◌};
ghost use Rattle.model.specs.Cut.{one_more_if};
ghost use Rattle.selections.specs.Selection.{named};
ghost use Rattle.edit.specs.Columns.{NumberRoom, Numbered};

use selections::names;

fn one_more_if(kept: bool, next: usize) -> usize
    requires { next < 255 }
    ensures { result ≡ one_more_if kept next }
{
    if kept { next + 1 } else { next }
}

// Byte n of the column is the new number of record n. Answers how many records are kept.
pub fn number(selection: &[u8], count: usize, numbers: &mut [u8]) -> usize
    requires { NumberRoom count selection.now numbers.old }
    ensures { Numbered (named selection.now) count numbers.new result }
{
    let mut next: usize = 0;
    for n in 0..count {
        numbers[n] = next as u8;
        next = one_more_if(names(selection, n), next);
    }
    next
}
