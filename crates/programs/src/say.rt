// Words, numbers, refusals and bytes on standard output.
use refusals::Refusal;
use std::io;

// How a byte is said: as two hexadecimal digits, or as a number.
#[derive(Clone, Copy)]
pub enum Form {
    Hex,
    Decimal,
}

pub fn text(rt: &impl Print, words: &[u8]) -> io::Result<()> {
    rt.write_all(words)
}

// A number after words.
pub fn number(rt: &impl Print, words: &[u8], n: usize) -> io::Result<()> {
    text(rt, words)?;
    print!(rt; "{n}")
}

fn named(rt: &impl Print, byte: Option<usize>) -> io::Result<()> {
    match byte {
        None => Ok(()),
        Some(i) => number(rt, b" byte ", i),
    }
}

pub fn refusal(rt: &impl Print, r: Refusal) -> io::Result<()> {
    let told = r.told();
    let byte = told.byte;
    number(rt, b"refused ", told.number)?;
    number(rt, b" at ", told.place)?;
    named(rt, byte)
}

fn byte(rt: &impl Print, form: Form, b: u8) -> io::Result<()> {
    match form {
        Form::Hex => print!(rt; "{b:02x}"),
        Form::Decimal => print!(rt; "{b}"),
    }
}

// One byte after another, a gap before each.
pub fn bytes(rt: &impl Print, form: Form, gap: &[u8], part: &[u8]) -> io::Result<()> {
    for b in part {
        text(rt, gap)?;
        byte(rt, form, *b)?;
    }
    Ok(())
}
