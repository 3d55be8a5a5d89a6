// What every judging asks, however the findings are searched for: whether the two lent buffers have room, and the verdict from what was found.
#![tactic(auto)]

ghost use Rattle.std.specs.Prelude.{◌≡◌, ◌≤◌};
ghost use Rattle.limits.specs.Limit.{limit};
ghost use Rattle.laws.specs.Says.{Says};
ghost use Rattle.judging.specs.Verdict.{any_found, verdict_by, verdict_of};

use findings::{Finding, Findings, Verdict};
use limits::LIMIT;

// "cycle buffers are at least 200 bytes"
pub fn has_room(first: usize, second: usize) -> bool
    ensures { Says result ((limit ≤ first) × (limit ≤ second)) }
{
    (LIMIT <= first) & (LIMIT <= second)
}

// Whether any finding has a witness.
fn any_found(x: Findings) -> bool
    ensures { result ≡ any_found x }
{
    let mut any = false;
    for place in 0..Finding::COUNT {
        let found = x.of(Finding::at(place));
        any = any | found.there();
    }
    any
}

// "undefined if W holds, else inconsistent if any other does, else consistent"
fn verdict_by(w: bool, any: bool) -> Verdict
    ensures { result ≡ verdict_by w any }
{
    if w {
        return Verdict::Undefined;
    }
    if any {
        return Verdict::Inconsistent;
    }
    Verdict::Consistent
}

// The verdict.
pub fn verdict_of(x: Findings) -> Verdict
    ensures { result ≡ verdict_of x }
{
    let w = x.w;
    verdict_by(w.there(), any_found(x))
}
