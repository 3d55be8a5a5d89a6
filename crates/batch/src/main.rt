// Judges the tables of the batch on standard input, writes each answer to standard output as it comes, and then the batch's refusal, if it has one.
#![tactic(auto)]

ghost use Rattle.std.specs.Prelude.{◌≤◌, length};
ghost use Rattle.lines.specs.Room.{longest};
ghost use Rattle.lines.specs.Judged.{judged_text, JudgedWhole};

use answers::{Step, judge_at};
use anyhow::{Context, Result};
use batches::MOST;
use input::read_full;
use judge::Report;
use limits::LIMIT;
use lines::{TEXT, put_judged};
use refusals::Refusal;

// One byte more than a batch may have: a longer input is refused by what is read of it.
const READ: usize = MOST + 1;

// The text of an answer.
fn say<'a>(
    rt: &impl Print,
    judged: Result<Report, Refusal>,
    first: &'a [u8],
    second: &'a [u8],
) -> Result<()>
    requires { (length (judged_text judged first.now second.now) ≤ longest) × JudgedWhole judged first.now second.now }
{
    let mut out = [0u8; TEXT];
    let len = put_judged(judged, first, second, &mut out);
    rt.write_all(&out[..len]).context("output")
}

// Each table is judged with the same two buffers in turn.
fn answer(rt: &impl Print, batch: &[u8]) -> Result<()> {
    let mut first = [0u8; LIMIT];
    let mut second = [0u8; LIMIT];
    let mut at: usize = 0;
    loop {
        match judge_at(batch, at, &mut first, &mut second) {
            Step::Answered(judged, next) => {
                say(rt, judged, &first, &second)?;
                at = next;
            }
            Step::Ended(ending) => {
                return match ending {
                    Ok(()) => Ok(()),
                    Err(why) => say(rt, Err(why), &first, &second),
                };
            }
        }
    }
}

fn main(rt: HostRuntime) -> Result<()> {
    let mut batch = [0u8; READ];
    let len = read_full(&mut rt.stdin(), &mut batch).context("input")?;
    answer(&rt, &batch[..len])
}
