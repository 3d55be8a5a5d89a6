// The examples of documents 01 and 02 as scripts, and E2 as bytes.
ghost use Rattle.std.specs.Prelude.{◌<◌};
ghost use Rattle.record.specs.Form.{record_size};

use crate::script;
use crate::script::WIDTH;
use record::places::SIZE;

pub const E1: [u8; WIDTH] = *b"In0----- ";

pub const E2: [u8; 5 * WIDTH] = *b"In0----- Sr00-0-0 La01100- Sr02-0-1 La01301- ";

pub const E3: [u8; 9 * WIDTH] =
    *b"In0----- Sn00-0-0 Sn01-1-0 In12---- Ss13-0-1 Ls14210- In22---- Ss26-1-1 Ls27100- ";

pub const E4: [u8; 9 * WIDTH] =
    *b"In0----- Sn00-0-0 Sn01-1-0 In12---- Ss13-0-1 Ls14210- In22---- Ss26-1-1 Ls27401- ";

pub const E5: [u8; 5 * WIDTH] = *b"In0----- In10---- In20---- Sn11-0-1 Sn22-0-2 ";

pub const E6: [u8; 4 * WIDTH] = *b"In0----- Sn00-0-0 Ln01100- Ln01-0u- ";

pub const E7: [u8; 2 * WIDTH] = *b"In0----- Ln00-0u- ";

pub const E8: [u8; 12 * WIDTH] =
    *b"In0----- Sn00-0-0 Sn01-1-0 In12---- In22---- Ln13100- Ln24210- Sn15-1-1 Ln24-1u- Sn28-0-1 Ln13-0u- Sn1A-1-1 ";

pub const E9: [u8; 11 * WIDTH] =
    *b"In0----- In10---- In20---- In30---- In40---- Sr11-0-1 Sr22-0-2 La33501- La37602- La44602- La49501- ";

pub const E10: [u8; 12 * WIDTH] =
    *b"In0----- Sn00-2-0 In11---- In21---- In31---- Sr12-2-1 La23120- La23521- Sr26-0-1 Sr27-1-1 La34801- La3A911- ";

// Document 02's table of two updates that took one token.
pub const E11: [u8; 6 * WIDTH] = *b"In0----- Sr00-0-0 In11---- In21---- Ub121001 Ub231001 ";

// E2 as bytes.
pub fn e2() -> [u8; 5 * SIZE] {
    let mut table = [0u8; 5 * SIZE];
    script::write(&E2, &mut table);
    table
}

// E2 with one byte of record n changed.
pub fn changed(n: usize, place: usize, byte: u8) -> [u8; 5 * SIZE]
    requires { (n < 5) × (place < record_size) }
{
    let mut table = e2();
    table[SIZE * n + place] = byte;
    table
}
