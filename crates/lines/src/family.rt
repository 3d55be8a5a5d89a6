// The lines of the findings, one after another.
ghost use Rattle.std.specs.Prelude.{◌≡◌};
ghost use Rattle.text.specs.Text.{Written};
ghost use Rattle.findings.specs.Family.{all_in_order, name_of};
ghost use Rattle.phrases.specs.Phrases.{line};
ghost use Rattle.phrases.specs.Room.{Room};
ghost use Rattle.lines.specs.Lines.{witness_text, lines_of};
ghost use Rattle.lines.specs.Witnesses.{witness_in, Whole, buffer_of, witnesses, AllWhole};

use findings::{Finding, Findings, Found};
use text::Text;

// What stands after a finding's name; the records of a cycle stand at the front of `records`.
fn put_witness(text: &mut Text<'_>, found: Found, records: &[u8])
    requires { Room text.old.out.now text.old.at (witness_text (witness_in found records.now)) × Whole found records.now }
    ensures same_reference { text.new.out.ghost_name ≡ text.old.out.ghost_name }
    ensures written { Written text.old.out.now text.old.at (witness_text (witness_in found records.now)) text.new.out.now text.new.at }
{
    match found {
        Found::Nothing => text.put(b" none"),
        Found::Record(n) => text.put_spaced(n),
        Found::Pair(p, q) => {
            text.put_spaced(p);
            text.put_spaced(q)
        }
        Found::Cycle(len) => text.put_each(records, len),
    }
}

// The line of one finding; the records of a cycle stand at the front of `records`.
fn finding_line(text: &mut Text<'_>, finding: Finding, found: Found, records: &[u8])
    requires { Room text.old.out.now text.old.at (line (name_of finding) (witness_text (witness_in found records.now))) × Whole found records.now }
    ensures same_reference { text.new.out.ghost_name ≡ text.old.out.ghost_name }
    ensures written { Written text.old.out.now text.old.at (line (name_of finding) (witness_text (witness_in found records.now))) text.new.out.now text.new.at }
{
    text.put(finding.name());
    put_witness(text, found, records);
    text.put(b"\n")
}

// Where the records of a finding's cycle stand.
fn buffer_of<'a>(finding: Finding, first: &'a [u8], second: &'a [u8]) -> &'a [u8]
    ensures { result.now ≡ buffer_of finding first.now second.now }
{
    if finding.in_second() {
        return second;
    }
    first
}

// A line for each finding, in order; the records of the cycles stand at the front of `first` and `second`.
pub fn put_findings<'a>(text: &mut Text<'_>, x: Findings, first: &'a [u8], second: &'a [u8])
    requires { Room text.old.out.now text.old.at (lines_of (witnesses x first.now second.now) all_in_order) × AllWhole x first.now second.now }
    ensures same_reference { text.new.out.ghost_name ≡ text.old.out.ghost_name }
    ensures written { Written text.old.out.now text.old.at (lines_of (witnesses x first.now second.now) all_in_order) text.new.out.now text.new.at }
{
    for finding in Finding::IN_ORDER {
        let found = x.of(finding);
        let records = buffer_of(finding, first, second);
        finding_line(text, finding, found, records);
    }
}
