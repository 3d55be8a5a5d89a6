// The third opinion on the table on standard input, to standard output.
#![tactic(auto)]

use anyhow::{Context, Result, bail};
use input::read_full;
use lines::TEXT;
use opinion::{MOST, write_opinion};

// One byte more than is judged: a longer input is too large by what is read of it.
const READ: usize = MOST + 1;

fn answer(rt: &impl Print, input: &[u8]) -> Result<()> {
    let mut out = [0u8; TEXT];
    match write_opinion(input, &mut out) {
        Ok(len) => rt.write_all(&out[..len]).context("output"),
        Err(_) => bail!("report"),
    }
}

fn main(rt: HostRuntime) -> Result<()> {
    let mut input = [0u8; READ];
    let len = read_full(&mut rt.stdin(), &mut input).context("input")?;
    answer(&rt, &input[..len])
}
