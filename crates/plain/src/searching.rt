// The least witness of each finding of a sound table, asked for record by record and pair by pair.
ghost use Rattle.std.specs.Prelude.{ℕ, ◌<◌};
ghost use Rattle.findings.specs.declared.Finding.TheVariants.{R};
ghost use Rattle.findings.specs.Meant.{Finds};
ghost use Rattle.model.specs.Findings.{Shows};
ghost use Rattle.table.specs.Events.{events_of};
ghost use Rattle.facts.specs.Sound.{Counted};
ghost use Rattle.judge.specs.Answer.{Roomy};
ghost use Rattle.judge.specs.Parts.{FoundAll};
ghost use Rattle.plain.specs.Pairs.{FirstPair};

use crate::reads::unjustified;
use crate::shown::{conflict_before, one_token, sources_conflict, writes_race};
use findings::{Findings, Found};
use tracing::cycles::least_cycle;
use tracing::sequential::Sc;
use tracing::writes::Wb0;

// R: the least read that is not justified.
fn find_read(table: &[u8], n: usize) -> Found
    requires { Counted table.now n }
    ensures { Finds (Shows (events_of table.now) R) result }
{
    match (0..n).find(|&r| unjustified(table, n, r)) {
        Some(r) => Found::Record(r),
        None => Found::Nothing,
    }
}

// The least pair that shows a finding: "the search stops at the first pair that fits".
fn find_pair<F: Fn(usize, usize) -> bool>(shows: F, n: usize) -> Found
    requires { (p q : ℕ) → p < n → q < n → F.pre shows p q }
    ensures { FirstPair n (F.post shows) result }
{
    let mut found = Found::Nothing;
    'search: for p in 0..n {
        for q in 0..n {
            if shows(p, q) {
                found = Found::Pair(p, q);
                break 'search;
            }
        }
    }
    found
}

// What is found of each finding; the cycle of A1 in the first buffer, that of A4 in the second.
pub fn find_all(table: &[u8], n: usize, first: &mut [u8], second: &mut [u8]) -> Findings
    requires { Counted table.now n × Roomy first.old second.old }
    ensures { FoundAll (events_of table.now) first.old first.new second.old second.new result }
{
    let r = find_read(table, n);
    let a1 = least_cycle::<Wb0>(table, n, first);
    let a2 = find_pair(|p, q| conflict_before(table, p, q), n);
    let a3 = find_pair(|p, q| sources_conflict(table, p, q), n);
    let a4 = least_cycle::<Sc>(table, n, second);
    let a5 = find_pair(|p, q| one_token(table, p, q), n);
    let w = find_pair(|p, q| writes_race(table, p, q), n);
    Findings {
        r,
        a1,
        a2,
        a3,
        a4,
        a5,
        w,
    }
}
