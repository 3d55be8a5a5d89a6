// Input read into lent room.
#![tactic(auto)]

ghost use Rattle.std.specs.Prelude.{◌≡◌, ◌<◌, ◌≤◌, IfOk, length, take};
ghost use Rattle.std.specs.Io.{ReadsAtMost};
ghost use Rattle.std.specs.Io.KnownBytes.{Consumes, IsAtEnd, ReadConsumes};

use std::io;
use std::io::{ErrorKind, Read};

// One read, tried again where it was interrupted.
fn read_some<R: Read>(input: &mut R, room: &mut [u8]) -> io::Result<usize>
    ensures bound { ReadsAtMost result room.new }
    ensures bytes { ReadConsumes (R.remaining input.old) (R.remaining input.new) result room.new }
{
    for _ in 0..u64::MAX {
        match input.read(room) {
            Err(e) if e.kind() == ErrorKind::Interrupted => {}
            read => return read,
        }
    }
    input.read(room)
}

// Reads until the room is full or the input ends; how many bytes were read, which stand at the front.
pub fn read_full<R: Read>(input: &mut R, room: &mut [u8]) -> io::Result<usize>
    ensures kept { length room.new ≡ length room.old }
    ensures within { IfOk result (λ n. n ≤ length room.new) }
    ensures bytes { IfOk result (λ n. Consumes (R.remaining input.old) (R.remaining input.new) (take n room.new)) }
    ensures ends { IfOk result (λ n. n < length room.new → IsAtEnd (R.remaining input.new)) }
{
    let mut len: usize = 0;
    while len < room.len() {
        let read = read_some(input, &mut room[len..])?;
        if read == 0 {
            break;
        }
        len += read;
    }
    Ok(len)
}
