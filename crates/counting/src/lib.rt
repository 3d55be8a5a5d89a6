// The figures of one table, and with it those of the tables before it.
#![tactic(auto)]

ghost use Rattle.std.specs.Prelude.{◌≡◌, map, eqb};
ghost use Rattle.findings.specs.Family.{all_in_order, found_of, there};
ghost use Rattle.findings.specs.declared.Verdict.TheVariants.{Undefined, Inconsistent, Consistent};
ghost use Rattle.tally.specs.Figures.{one_if, numbers, same_verdict};
ghost use Rattle.tally.specs.Sums.{Small};
ghost use Rattle.counting.specs.Parts.{of_refused, of_report, of_judged};
ghost use Rattle.counting.specs.Counting.{FiguresOfOne, WithTable};

use findings::{Finding, Findings, Verdict};
use judge::{Report, judge};
use limits::LIMIT;
use refusals::Refusal;
use tally::{EACH_NUMBER, Figures, NUMBERS};

// One for the number of a refusal.
fn once_refused(number: usize) -> [usize; NUMBERS]
    ensures { result ≡ map (λ n. one_if (eqb number n)) numbers }
{
    EACH_NUMBER.map(|n| usize::from(number == n))
}

// One for each finding that was found.
fn once_found(found: Findings) -> [usize; Finding::COUNT]
    ensures { result ≡ map (λ f. one_if (there (found_of found f))) all_in_order }
{
    Finding::IN_ORDER.map(|f| usize::from(found.of(f).there()))
}

// The figures of a table refused with a number.
fn of_refused(number: usize) -> Figures
    ensures { result ≡ of_refused number }
{
    Figures {
        tables: 1,
        refused: once_refused(number),
        found: [0; Finding::COUNT],
        consistent: 0,
        inconsistent: 0,
        undefined: 0,
        largest: 0,
    }
}

// The figures of a table that was judged.
fn of_report(report: Report) -> Figures
    ensures { result ≡ of_report report }
{
    let verdict = report.verdict;
    let found = report.findings;
    Figures {
        tables: 1,
        refused: [0; NUMBERS],
        found: once_found(found),
        consistent: usize::from(verdict == Verdict::Consistent),
        inconsistent: usize::from(verdict == Verdict::Inconsistent),
        undefined: usize::from(verdict == Verdict::Undefined),
        largest: report.events,
    }
}

fn of_judged(judged: Result<Report, Refusal>) -> Figures
    ensures { result ≡ of_judged judged }
{
    match judged {
        Ok(x) => of_report(x),
        Err(r) => of_refused(r.told().number),
    }
}

// The figures of a table.
pub fn of_table(table: &[u8]) -> Figures
    ensures { FiguresOfOne table.now result }
{
    let mut first = [0u8; LIMIT];
    let mut second = [0u8; LIMIT];
    of_judged(judge(table, &mut first, &mut second))
}

// The figures with a table more.
pub fn with_table(figures: Figures, table: &[u8]) -> Figures
    requires { Small figures }
    ensures { WithTable figures table.now result }
{
    figures.plus(of_table(table))
}
