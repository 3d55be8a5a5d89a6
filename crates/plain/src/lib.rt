// The plain engine: what the judge says of a table, worked out by questions that the table itself answers. No relation is kept.
#![tactic(auto)]

mod reads;
mod searching;
mod shown;

ghost use Rattle.facts.specs.Sound.{Counted};
ghost use Rattle.judge.specs.Answer.{Roomy, JudgeAnswer};
ghost use Rattle.judge.specs.Parts.{ReportOf};

use crate::searching::find_all;
use judge::Report;
use judging::{has_room, verdict_of};
use record::places::SIZE;
use refusals::Refusal;
use table::{length_ok, test_records};

// The whole report of a sound table of n records.
fn report_of(table: &[u8], n: usize, first: &mut [u8], second: &mut [u8]) -> Report
    requires { Counted table.now n × Roomy first.old second.old }
    ensures { ReportOf table.now first.old first.new second.old second.new result }
{
    let findings = find_all(table, n, first, second);
    Report {
        events: n,
        findings,
        verdict: verdict_of(findings),
    }
}

// The judging of a table: "Order of a judging: 1, 11, then records."
pub fn judge(table: &[u8], first: &mut [u8], second: &mut [u8]) -> Result<Report, Refusal>
    ensures { JudgeAnswer table.now first.old first.new second.old second.new result }
{
    let len = table.len();
    if !length_ok(len) {
        return Err(Refusal::Length);
    }
    if !has_room(first.len(), second.len()) {
        return Err(Refusal::Room);
    }
    let count = len / SIZE;
    let n = test_records(table, count)?;
    Ok(report_of(table, n, first, second))
}
