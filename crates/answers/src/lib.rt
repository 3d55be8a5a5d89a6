// The answers of a batch: the report of one table at a time, and the texts of all in one call.
#![tactic(auto)]

ghost use Rattle.std.specs.Prelude.{◌+◌, ◌*◌, ◌≤◌, length};
ghost use Rattle.answers.specs.Answer.{StepAnswer, RunAnswer};
ghost use Rattle.answers.specs.Room.{enough, TextPut, TextsAt};

use batches::{Item, MOST, item_at};
use judge::{Report, judge};
use lines::write_answer;
use refusals::Refusal;

// What a step gives: the answer of a table and where the next begins, or how the batch ended. Both are answers to what was asked, so that neither is the
// error of a `Result`.
#[derive(Drop)]
pub enum Step {
    Ended(Result<(), Refusal>),
    Answered(Result<Report, Refusal>, usize),
}

// What is told of a batch whose answers were written: how many tables, how many bytes, how it ended.
#[derive(Drop)]
pub struct Answers {
    pub tables: usize,
    pub bytes: usize,
    pub ending: Result<(), Refusal>,
}

// Judges the table at a place of the batch: "handed on as a part of the batch from its middle".
pub fn judge_at(batch: &[u8], at: usize, first: &mut [u8], second: &mut [u8]) -> Step
    ensures { StepAnswer batch.now at first.old first.new second.old second.new result }
{
    match item_at(batch, at) {
        Item::Table(from, to) => Step::Answered(judge(&batch[from..to], first, second), to),
        Item::Ended(e) => Step::Ended(e),
    }
}

// The text of a table's answer from `at` on; returns the place after it. There is room, so that it is never refused.
fn put_text(table: &[u8], out: &mut [u8], at: usize) -> usize
    requires { at + (24 + 6 * length table.now) ≤ length out.old }
    ensures { TextPut table.now out.old at out.new result }
{
    let end = out.len();
    match write_answer(table, &mut out[at..end]) {
        Ok(len) => at + len,
        Err(_) => at,
    }
}

// The texts of all answers at the front of `out`.
fn put_texts(batch: &[u8], out: &mut [u8]) -> Answers
    requires { enough ≤ length out.old }
    ensures { TextsAt batch.now out.new result }
{
    let mut at: usize = 0;
    let mut tables: usize = 0;
    let mut bytes: usize = 0;
    loop {
        match item_at(batch, at) {
            Item::Table(from, to) => {
                bytes = put_text(&batch[from..to], out, bytes);
                tables += 1;
                at = to;
            }
            Item::Ended(e) => {
                return Answers {
                    tables,
                    bytes,
                    ending: e,
                };
            }
        }
    }
}

// Room for the texts of every batch: `enough` of the definitions.
pub const ENOUGH: usize = 6 * MOST;

// The night run, in one call: writes every answer's text, one after another. Only an output that is too short refuses it.
pub fn write_answers(batch: &[u8], out: &mut [u8]) -> Result<Answers, Refusal>
    ensures { RunAnswer batch.now out.old out.new result }
{
    let mut text = [0u8; ENOUGH];
    let answers = put_texts(batch, &mut text);
    if out.len() < answers.bytes {
        return Err(Refusal::Room);
    }
    out[..answers.bytes].copy_from_slice(&text[..answers.bytes]);
    Ok(answers)
}
