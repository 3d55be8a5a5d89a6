// The judge: a table's seven findings, each with its least witness, and the verdict.
#![tactic(auto)]

mod searching;

ghost use Rattle.std.specs.Prelude.{T, length};
ghost use Rattle.facts.specs.Sound.{Counted};
ghost use Rattle.table.specs.Test.{length_ok};
ghost use Rattle.judge.specs.Answer.{Roomy, JudgeAnswer};
ghost use Rattle.judge.specs.Parts.{ReportOf};

use crate::searching::find_all;
use findings::{Findings, Verdict};
use judging::{has_room, verdict_of};
use record::places::SIZE;
use refusals::Refusal;
use table::{length_ok, test_records};

// What a judging finds; the records of the cycles stand in the two lent buffers.
#[derive(Drop)]
pub struct Report {
    pub events: usize,
    pub findings: Findings,
    pub verdict: Verdict,
}

// The whole report of a sound table of n records.
fn report_of(table: &[u8], n: usize, first: &mut [u8], second: &mut [u8]) -> Report
    requires { Counted table.now n × Roomy first.old second.old }
    ensures { ReportOf table.now first.old first.new second.old second.new result }
{
    let found = find_all(table, n, first, second);
    let verdict = verdict_of(found);
    Report {
        events: n,
        findings: found,
        verdict: verdict,
    }
}

// The records, once the length and the room are right.
fn judge_records(table: &[u8], first: &mut [u8], second: &mut [u8]) -> Result<Report, Refusal>
    requires { T (length_ok (length table.now)) × Roomy first.old second.old }
    ensures { JudgeAnswer table.now first.old first.new second.old second.new result }
{
    let count = table.len() / SIZE;
    let n = test_records(table, count)?;
    Ok(report_of(table, n, first, second))
}

// The judging of a table: "Order of a judging: 1, 11, then records." The answer stands in a local, and there is one way out: a way out before the frame
// of this function is made has been compiled wrong (docs/DECISIONS.md, 37).
pub fn judge(table: &[u8], first: &mut [u8], second: &mut [u8]) -> Result<Report, Refusal>
    ensures { JudgeAnswer table.now first.old first.new second.old second.new result }
{
    let len = table.len();
    let mut judged = Err(Refusal::Length);
    if length_ok(len) {
        judged = Err(Refusal::Room);
        if has_room(first.len(), second.len()) {
            judged = judge_records(table, first, second);
        }
    }
    judged
}
