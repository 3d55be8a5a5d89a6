// An append: one more record in a lent buffer.
ghost use Rattle.edit.specs.Append.{InUse, SoundUse, Decides, AppendAnswer};

use events::Record;
use limits::LIMIT;
use record::places::SIZE;
use refusals::Refusal;

// The answer for the new record, where the records in use are sound: 12, 11, "then the new event by 3 to 8 at the next number".
fn answer_for_new(buffer: &[u8], used: usize, new: Record) -> Result<usize, Refusal>
    requires { SoundUse buffer.now used }
    ensures { Decides buffer.now used new result }
{
    if used == LIMIT {
        return Err(Refusal::Full);
    }
    if SIZE * used + SIZE <= buffer.len() {
        return match table::check_new(buffer, used, new) {
            Ok(()) => Ok(used + 1),
            Err(f) => Err(Refusal::Record(f, used)),
        };
    }
    Err(Refusal::Room)
}

// The answer for records in use that the buffer holds.
fn answer_in_use(buffer: &[u8], used: usize, new: Record) -> Result<usize, Refusal>
    requires { InUse buffer.now used }
    ensures { Decides buffer.now used new result }
{
    table::test_records(buffer, used)?;
    answer_for_new(buffer, used, new)
}

fn answer(buffer: &[u8], used: usize, new: Record) -> Result<usize, Refusal>
    ensures { Decides buffer.now used new result }
{
    if used <= LIMIT {
        if SIZE * used <= buffer.len() {
            return answer_in_use(buffer, used, new);
        }
        return Err(Refusal::Length);
    }
    Err(Refusal::Length)
}

// Appends `new` to the first `used` records of the buffer.
pub fn append(buffer: &mut [u8], used: usize, new: Record) -> Result<usize, Refusal>
    ensures { AppendAnswer buffer.old used new buffer.new result }
{
    let count = answer(buffer, used, new)?;
    slots::write_at(buffer, used, new);
    Ok(count)
}
