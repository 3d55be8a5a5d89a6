// A judging's answer on one line of standard output.
ghost use Rattle.std.specs.Prelude.{◌≤◌, length};
ghost use Rattle.limits.specs.Limit.{limit};

use findings::{Finding, Findings, Found, Verdict};
use judge::Report;
use limits::LIMIT;
use programs::say;
use programs::say::Form;
use std::io;

fn say_name(rt: &impl Print, finding: Finding) -> io::Result<()> {
    say::text(rt, b" ")?;
    say::text(rt, finding.name())
}

fn say_witness(rt: &impl Print, found: Found, records: &[u8]) -> io::Result<()> {
    match found {
        Found::Nothing => Ok(()),
        Found::Record(n) => say::number(rt, b" ", n),
        Found::Pair(p, q) => {
            say::number(rt, b" ", p)?;
            say::number(rt, b" ", q)
        }
        Found::Cycle(len) => say::bytes(
            rt,
            Form::Decimal,
            b" ",
            records.get(..len).unwrap_or(records),
        ),
    }
}

// A finding's name and its records, where there is one; those of a cycle stand in `records`.
fn say_found(rt: &impl Print, finding: Finding, found: Found, records: &[u8]) -> io::Result<()> {
    if found.there() {
        say_name(rt, finding)?;
        return say_witness(rt, found, records);
    }
    Ok(())
}

fn say_finding(
    rt: &impl Print,
    finding: Finding,
    x: Findings,
    first: &[u8],
    second: &[u8],
) -> io::Result<()> {
    let found = x.of(finding);
    if finding.in_second() {
        return say_found(rt, finding, found, second);
    }
    say_found(rt, finding, found, first)
}

fn say_findings(rt: &impl Print, x: Findings, first: &[u8], second: &[u8]) -> io::Result<()> {
    for finding in Finding::IN_ORDER {
        say_finding(rt, finding, x, first, second)?;
    }
    Ok(())
}

fn say_verdict(rt: &impl Print, verdict: Verdict) -> io::Result<()> {
    match verdict {
        Verdict::Undefined => say::text(rt, b" undefined"),
        Verdict::Inconsistent => say::text(rt, b" inconsistent"),
        Verdict::Consistent => say::text(rt, b" consistent"),
    }
}

fn say_report(rt: &impl Print, report: Report, first: &[u8], second: &[u8]) -> io::Result<()> {
    say::number(rt, b" events ", report.events)?;
    say_findings(rt, report.findings, first, second)?;
    say_verdict(rt, report.verdict)
}

fn say_judged(
    rt: &impl Print,
    table: &[u8],
    first: &mut [u8],
    second: &mut [u8],
) -> io::Result<()> {
    match judge::judge(table, first, second) {
        Ok(report) => say_report(rt, report, first, second),
        Err(r) => {
            say::text(rt, b" ")?;
            say::refusal(rt, r)
        }
    }
}

// Judges with the fronts of two buffers.
fn say_fronts(
    rt: &impl Print,
    table: &[u8],
    first: &mut [u8],
    a: usize,
    second: &mut [u8],
    b: usize,
) -> io::Result<()>
    requires { (a ≤ length first.old) × (b ≤ length second.old) }
{
    say_judged(rt, table, &mut first[0..a], &mut second[0..b])
}

// Judges a table with buffers of `a` and `b` bytes.
pub fn say_lent(rt: &impl Print, name: &[u8], table: &[u8], a: usize, b: usize) -> io::Result<()>
    requires { (a ≤ limit) × (b ≤ limit) }
{
    let mut first = [200u8; LIMIT];
    let mut second = [200u8; LIMIT];
    say::text(rt, name)?;
    say::text(rt, b":")?;
    say_fronts(rt, table, &mut first, a, &mut second, b)?;
    say::text(rt, b"\n")
}

pub fn say_judging(rt: &impl Print, name: &[u8], table: &[u8]) -> io::Result<()> {
    say_lent(rt, name, table, LIMIT, LIMIT)
}
