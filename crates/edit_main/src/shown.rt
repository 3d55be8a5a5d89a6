// Records in hexadecimal, each on a line.
use programs::say;
use programs::say::Form;
use record::places::SIZE;
use std::io;

pub fn say_record(rt: &impl Print, part: &[u8]) -> io::Result<()> {
    say::text(rt, b" ")?;
    say::bytes(rt, Form::Hex, b" ", part)?;
    say::text(rt, b"\n")
}

// The first records, and the sixteen bytes after them, if there are any.
pub fn say_records(rt: &impl Print, bytes: &[u8], count: usize) -> io::Result<()> {
    for n in 0..bytes.len() / SIZE {
        if n <= count {
            say_record(rt, &bytes[SIZE * n..SIZE * n + SIZE])?;
        }
    }
    Ok(())
}
