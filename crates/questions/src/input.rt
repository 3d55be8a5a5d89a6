// What a question holds, from standard input.
use record::word_of;
use std::io;
use std::io::{ErrorKind, Read};

// Fills the bytes; whether there were so many.
pub fn filled(input: &mut impl Read, bytes: &mut [u8]) -> io::Result<bool> {
    match input.read_exact(bytes) {
        Ok(()) => Ok(true),
        Err(e) if e.kind() == ErrorKind::UnexpectedEof => Ok(false),
        Err(e) => Err(e),
    }
}

// Two bytes, low byte first; one above every length where there are none.
pub fn next_word(input: &mut impl Read) -> io::Result<usize> {
    let mut two = [0u8; 2];
    if filled(input, &mut two)? {
        return Ok(usize::from(word_of(two[0], two[1])));
    }
    Ok(65536)
}
