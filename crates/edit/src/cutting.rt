// A cut: the selected records of a table, written to a lent output.
ghost use Rattle.std.specs.Prelude.{◌≤◌, length};
ghost use Rattle.limits.specs.Limit.{limit};
ghost use Rattle.table.specs.Test.{TestAnswer};
ghost use Rattle.edit.specs.Cut.{Selected, Whole, CutAnswer};

use crate::completeness::least_lacking;
use crate::numbering::number;
use crate::writing::write_kept;
use limits::LIMIT;
use record::places::SIZE;
use refusals::Refusal;

// The cut by a selection that lacks nothing: 11, or the kept records. `numbers` is room to work in, here and below.
fn cut_complete(
    table: &[u8],
    count: usize,
    selection: &[u8],
    numbers: &mut [u8],
    out: &mut [u8],
) -> Result<usize, Refusal>
    requires { Whole table.now selection.now count × (limit ≤ length numbers.old) }
    ensures { CutAnswer table.now selection.now out.old out.new result }
{
    let size = number(selection, count, numbers);
    if SIZE * size <= out.len() {
        write_kept(table, selection, numbers, count, out);
        Ok(size)
    } else {
        Err(Refusal::Room)
    }
}

// The cut by a selection that is not refused: 10, then the rest.
fn cut_by(
    table: &[u8],
    count: usize,
    selection: &[u8],
    numbers: &mut [u8],
    out: &mut [u8],
) -> Result<usize, Refusal>
    requires { Selected table.now selection.now count × (limit ≤ length numbers.old) }
    ensures { CutAnswer table.now selection.now out.old out.new result }
{
    match least_lacking(table, selection, count) {
        Some(n) => Err(Refusal::Incomplete(n)),
        None => cut_complete(table, count, selection, numbers, out),
    }
}

// The cut of a sound table: 9, then the rest.
fn cut_sound(
    table: &[u8],
    count: usize,
    selection: &[u8],
    numbers: &mut [u8],
    out: &mut [u8],
) -> Result<usize, Refusal>
    requires { TestAnswer table.now (Ok count) × (limit ≤ length numbers.old) }
    ensures { CutAnswer table.now selection.now out.old out.new result }
{
    if selections::refused(selection, count) {
        Err(Refusal::Selection)
    } else {
        cut_by(table, count, selection, numbers, out)
    }
}

// Cuts the table down to the records that the selection names. The room for the new numbers is made before anything is tested, so that the frame of
// this function is made first: a frame that is made after a test has been compiled wrong (docs/DECISIONS.md, 37).
pub fn cut(table: &[u8], selection: &[u8], out: &mut [u8]) -> Result<usize, Refusal>
    ensures { CutAnswer table.now selection.now out.old out.new result }
{
    let mut numbers = [0u8; LIMIT];
    match table::test(table) {
        Err(why) => Err(why),
        Ok(count) => cut_sound(table, count, selection, &mut numbers, out),
    }
}
