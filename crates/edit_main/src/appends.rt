// An append, and what it gives.
ghost use Rattle.std.specs.Prelude.{◌≤◌, length};

use edit::appending::append;
use events::Record;
use programs::say;
use programs::script::{WIDTH, record_at};
use refusals::Refusal;
use std::io;

fn say_answer(rt: &impl Print, appended: Result<usize, Refusal>) -> io::Result<()> {
    match appended {
        Ok(n) => say::number(rt, b" count ", n),
        Err(r) => {
            say::text(rt, b" ")?;
            say::refusal(rt, r)
        }
    }
}

fn say_append(
    rt: &impl Print,
    what: &[u8],
    t: &mut [u8],
    used: usize,
    new: Record,
) -> io::Result<()> {
    say::text(rt, what)?;
    say_answer(rt, append(t, used, new))
}

// On a line.
pub fn say_line(
    rt: &impl Print,
    what: &[u8],
    t: &mut [u8],
    used: usize,
    new: Record,
) -> io::Result<()> {
    say_append(rt, what, t, used, new)?;
    say::text(rt, b"\n")
}

// An append to the first `room` bytes.
pub fn say_within(
    rt: &impl Print,
    what: &[u8],
    t: &mut [u8],
    room: usize,
    used: usize,
    new: Record,
) -> io::Result<()>
    requires { room ≤ length t.old }
{
    say_append(rt, what, &mut t[0..room], used, new)
}

// Appends the records of a script, one after another.
pub fn build(rt: &impl Print, what: &[u8], t: &mut [u8], script: &[u8]) -> io::Result<()> {
    for n in 0..script.len() / WIDTH {
        say_line(rt, what, t, n, record_at(script, n))?;
    }
    Ok(())
}
