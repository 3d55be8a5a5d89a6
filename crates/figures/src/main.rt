// Counts over the batch on standard input, and writes Monday's figures to standard output.
#![tactic(auto)]

use anyhow::{Context, Result, bail};
use batches::MOST;
use input::read_full;
use sheet::{SHEET, write_figures};

// One byte more than a batch may have: a longer input is refused by what is read of it.
const READ: usize = MOST + 1;

fn answer(rt: &impl Print, batch: &[u8]) -> Result<()> {
    let mut out = [0u8; SHEET];
    match write_figures(batch, &mut out) {
        Ok(len) => rt.write_all(&out[..len]).context("output"),
        Err(_) => bail!("figures"),
    }
}

fn main(rt: HostRuntime) -> Result<()> {
    let mut batch = [0u8; READ];
    let len = read_full(&mut rt.stdin(), &mut batch).context("input")?;
    answer(&rt, &batch[..len])
}
