// The questions about a batch: all its answers in one call, and its figures.
use crate::ask::{FILL, end_line, say_hex, say_refused};
use crate::input::{filled, next_word};
use answers::{Answers, write_answers};
use programs::say;
use refusals::Refusal;
use sheet::write_figures;
use std::io;
use std::io::Read;

// The longest batch or output that is handed over.
const LONGEST: usize = 65535;

// What is asked of a batch.
#[derive(Drop)]
pub enum Asked {
    Answers,
    Figures,
}

fn say_ending(rt: &impl Print, ending: Result<(), Refusal>) -> io::Result<()> {
    match ending {
        Ok(()) => say::text(rt, b"cleanly"),
        Err(r) => say::refusal(rt, r),
    }
}

fn say_answers(rt: &impl Print, answers: Answers) -> io::Result<()> {
    say::number(rt, b"answered ", answers.tables)?;
    say::number(rt, b" tables ", answers.bytes)?;
    say::text(rt, b" bytes, ended ")?;
    say_ending(rt, answers.ending)?;
    end_line(rt)
}

fn say_run(rt: &impl Print, batch: &[u8], out: &mut [u8]) -> io::Result<()> {
    match write_answers(batch, out) {
        Ok(answers) => say_answers(rt, answers),
        Err(r) => say_refused(rt, r),
    }
}

fn say_figures(rt: &impl Print, batch: &[u8], out: &mut [u8]) -> io::Result<()> {
    match write_figures(batch, out) {
        Ok(len) => {
            say::number(rt, b"wrote ", len)?;
            say::text(rt, b" bytes")?;
            end_line(rt)
        }
        Err(r) => say_refused(rt, r),
    }
}

fn say_asked(rt: &impl Print, asked: Asked, batch: &[u8], out: &mut [u8]) -> io::Result<()> {
    match asked {
        Asked::Answers => say_run(rt, batch, out),
        Asked::Figures => say_figures(rt, batch, out),
    }
}

fn run_filled(
    rt: &impl Print,
    input: &mut impl Read,
    asked: Asked,
    batch: &mut [u8],
    out: &mut [u8],
) -> io::Result<bool> {
    let whole = filled(input, batch)?;
    say_asked(rt, asked, batch, out)?;
    say_hex(rt, out)?;
    end_line(rt)?;
    Ok(whole)
}

pub fn take_batch(rt: &impl Print, input: &mut impl Read, asked: Asked) -> io::Result<bool> {
    let size = next_word(input)?;
    let len = next_word(input)?;
    if LONGEST < size {
        return Ok(false);
    }
    if LONGEST < len {
        return Ok(false);
    }
    let mut batch = [0u8; LONGEST];
    let mut out = [FILL; LONGEST];
    run_filled(rt, input, asked, &mut batch[0..len], &mut out[0..size])
}
