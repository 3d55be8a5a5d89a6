// The questions about one table: each is read whole and answered; each part of an answer ends its line, and an empty line ends each answer.
use crate::input::{filled, next_word};
use edit::appending::append;
use edit::cutting::cut;
use events::Record;
use fetch::{fetch, refusal_of_fetch};
use lines::{TEXT, write_answer};
use programs::say;
use programs::say::Form;
use record::places::SIZE;
use record::record_from;
use refusals::Refusal;
use std::io;
use std::io::Read;

// The longest table, selection, buffer or output that is handed over: wrong lengths are tried too.
const MOST: usize = 4096;

// What an output holds before a cut or a run over a batch.
pub const FILL: u8 = 0xA5;

pub fn end_line(rt: &impl Print) -> io::Result<()> {
    say::text(rt, b"\n")
}

pub fn say_hex(rt: &impl Print, bytes: &[u8]) -> io::Result<()> {
    say::bytes(rt, Form::Hex, b"", bytes)?;
    end_line(rt)
}

pub fn say_refused(rt: &impl Print, r: Refusal) -> io::Result<()> {
    say::refusal(rt, r)?;
    end_line(rt)
}

fn say_counted(rt: &impl Print, words: &[u8], n: usize) -> io::Result<()> {
    say::number(rt, words, n)?;
    end_line(rt)
}

fn say_report(rt: &impl Print, table: &[u8]) -> io::Result<()> {
    let mut out = [0u8; TEXT];
    match write_answer(table, &mut out) {
        Ok(len) => say::text(rt, &out[..len]),
        Err(r) => say_refused(rt, r),
    }
}

fn judge_filled(rt: &impl Print, input: &mut impl Read, table: &mut [u8]) -> io::Result<bool> {
    let whole = filled(input, table)?;
    say_report(rt, table)?;
    end_line(rt)?;
    Ok(whole)
}

pub fn take_judging(rt: &impl Print, input: &mut impl Read) -> io::Result<bool> {
    let len = next_word(input)?;
    if MOST < len {
        return Ok(false);
    }
    let mut table = [0u8; MOST];
    judge_filled(rt, input, &mut table[0..len])
}

fn say_cut(rt: &impl Print, table: &[u8], selection: &[u8], out: &mut [u8]) -> io::Result<()> {
    match cut(table, selection, out) {
        Ok(k) => say_counted(rt, b"cut ", k),
        Err(r) => say_refused(rt, r),
    }
}

fn cut_filled(
    rt: &impl Print,
    input: &mut impl Read,
    table: &mut [u8],
    selection: &[u8],
    out: &mut [u8],
) -> io::Result<bool> {
    let whole = filled(input, table)?;
    say_cut(rt, table, selection, out)?;
    say_hex(rt, out)?;
    end_line(rt)?;
    Ok(whole)
}

// The rest of a question about a cut, once its selection is there.
fn take_cut_by(rt: &impl Print, input: &mut impl Read, selection: &[u8]) -> io::Result<bool> {
    let size = next_word(input)?;
    let len = next_word(input)?;
    if MOST < size {
        return Ok(false);
    }
    if MOST < len {
        return Ok(false);
    }
    let mut table = [0u8; MOST];
    let mut out = [FILL; MOST];
    cut_filled(rt, input, &mut table[0..len], selection, &mut out[0..size])
}

fn cut_by_filled(rt: &impl Print, input: &mut impl Read, selection: &mut [u8]) -> io::Result<bool> {
    if filled(input, selection)? {
        return take_cut_by(rt, input, selection);
    }
    Ok(false)
}

pub fn take_cut(rt: &impl Print, input: &mut impl Read) -> io::Result<bool> {
    let len = next_word(input)?;
    if MOST < len {
        return Ok(false);
    }
    let mut selection = [0u8; MOST];
    cut_by_filled(rt, input, &mut selection[0..len])
}

fn say_append(rt: &impl Print, buffer: &mut [u8], used: usize, new: Record) -> io::Result<()> {
    match append(buffer, used, new) {
        Ok(k) => say_counted(rt, b"count ", k),
        Err(r) => say_refused(rt, r),
    }
}

fn append_filled(
    rt: &impl Print,
    input: &mut impl Read,
    buffer: &mut [u8],
    used: usize,
    new: Record,
) -> io::Result<bool> {
    let whole = filled(input, buffer)?;
    say_append(rt, buffer, used, new)?;
    say_hex(rt, buffer)?;
    end_line(rt)?;
    Ok(whole)
}

pub fn take_append(rt: &impl Print, input: &mut impl Read) -> io::Result<bool> {
    let used = next_word(input)?;
    let mut new = [0u8; SIZE];
    if !filled(input, &mut new)? {
        return Ok(false);
    }
    let len = next_word(input)?;
    if MOST < len {
        return Ok(false);
    }
    let mut buffer = [0u8; MOST];
    append_filled(rt, input, &mut buffer[0..len], used, record_from(&new))
}

fn say_fetch_test(rt: &impl Print, table: &[u8], asked: usize) -> io::Result<()> {
    match refusal_of_fetch(table, asked) {
        Ok(()) => say::text(rt, b"given\n"),
        Err(r) => say_refused(rt, r),
    }
}

fn fetch_filled(
    rt: &impl Print,
    input: &mut impl Read,
    table: &mut [u8],
    asked: usize,
) -> io::Result<bool> {
    let whole = filled(input, table)?;
    say_hex(rt, fetch(table, asked))?;
    say_fetch_test(rt, table, asked)?;
    end_line(rt)?;
    Ok(whole)
}

pub fn take_fetch(rt: &impl Print, input: &mut impl Read) -> io::Result<bool> {
    let asked = next_word(input)?;
    let len = next_word(input)?;
    if MOST < len {
        return Ok(false);
    }
    let mut table = [0u8; MOST];
    fetch_filled(rt, input, &mut table[0..len], asked)
}
