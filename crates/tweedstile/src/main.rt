// Judges the table on standard input, and writes its report to standard output.
#![tactic(auto)]

use anyhow::{Context, Result, bail};
use input::read_full;
use limits::LIMIT;
use lines::{TEXT, write_answer};
use record::places::SIZE;

// One record more than a table may have: a longer input is refused by what is read of it.
const MOST: usize = SIZE * LIMIT + SIZE;

fn answer(rt: &impl Print, table: &[u8]) -> Result<()> {
    let mut out = [0u8; TEXT];
    match write_answer(table, &mut out) {
        Ok(len) => rt.write_all(&out[..len]).context("output"),
        Err(_) => bail!("report"),
    }
}

fn main(rt: HostRuntime) -> Result<()> {
    let mut table = [0u8; MOST];
    let len = read_full(&mut rt.stdin(), &mut table).context("input")?;
    answer(&rt, &table[..len])
}
