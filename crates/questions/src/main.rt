// Answers many questions, one after another, for the comparison with the second judge (second/README.md has their form).
#![tactic(auto)]

mod ask;
mod input;
mod run;

use crate::ask::{take_append, take_cut, take_fetch, take_judging};
use crate::input::filled;
use crate::run::{Asked, take_batch};
use std::io;
use std::io::Read;

// The next question, if there is one; whether to go on.
fn take_next(rt: &impl Print, input: &mut impl Read) -> io::Result<bool> {
    let mut kind = [0u8; 1];
    if !filled(input, &mut kind)? {
        return Ok(false);
    }
    let k = kind[0];
    if k == b'J' {
        return take_judging(rt, input);
    }
    if k == b'C' {
        return take_cut(rt, input);
    }
    if k == b'A' {
        return take_append(rt, input);
    }
    if k == b'F' {
        return take_fetch(rt, input);
    }
    if k == b'B' {
        return take_batch(rt, input, Asked::Answers);
    }
    if k == b'M' {
        return take_batch(rt, input, Asked::Figures);
    }
    Ok(false)
}

fn main(rt: HostRuntime) -> io::Result<()> {
    let mut input = rt.stdin();
    for _ in 0..u64::MAX {
        if !take_next(&rt, &mut input)? {
            break;
        }
    }
    Ok(())
}
