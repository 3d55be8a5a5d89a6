// The answer of a judging as text, line by line.
#![tactic(auto)]

mod family;

ghost use Rattle.std.specs.Prelude.{◌≡◌, ◌≤◌, length};
ghost use Rattle.text.specs.Text.{Written};
ghost use Rattle.phrases.specs.Phrases.{line};
ghost use Rattle.phrases.specs.Room.{Room};
ghost use Rattle.lines.specs.Lines.{verdict_text, verdict_word, report_text};
ghost use Rattle.lines.specs.Room.{longest};
ghost use Rattle.lines.specs.Witnesses.{witnesses, AllWhole};
ghost use Rattle.lines.specs.Judged.{judged_text, JudgedWhole};
ghost use Rattle.lines.specs.Answer.{TextAt, WriteAnswer};

use crate::family::put_findings;
use findings::{Finding, Findings, Verdict};
use judge::Report;
use limits::LIMIT;
use phrases::{hand_over, number_line, put_refused};
use refusals::Refusal;
use text::Text;

// Room for the longest text: `longest` of the definitions.
pub const TEXT: usize = 32 + Finding::COUNT * (8 + 4 * LIMIT);

fn verdict_line(text: &mut Text<'_>, verdict: Verdict)
    requires { Room text.old.out.now text.old.at (line verdict_word (verdict_text verdict)) }
    ensures same_reference { text.new.out.ghost_name ≡ text.old.out.ghost_name }
    ensures written { Written text.old.out.now text.old.at (line verdict_word (verdict_text verdict)) text.new.out.now text.new.at }
{
    match verdict {
        Verdict::Undefined => text.put(b"verdict undefined\n"),
        Verdict::Inconsistent => text.put(b"verdict inconsistent\n"),
        Verdict::Consistent => text.put(b"verdict consistent\n"),
    }
}

// The whole report; the records of its cycles stand at the front of `first` and `second`.
fn put_report<'a>(
    text: &mut Text<'_>,
    events: usize,
    x: Findings,
    verdict: Verdict,
    first: &'a [u8],
    second: &'a [u8],
)
    requires { Room text.old.out.now text.old.at (report_text events (witnesses x first.now second.now) verdict) × AllWhole x first.now second.now }
    ensures same_reference { text.new.out.ghost_name ≡ text.old.out.ghost_name }
    ensures written { Written text.old.out.now text.old.at (report_text events (witnesses x first.now second.now) verdict) text.new.out.now text.new.at }
{
    number_line(text, b"events", events);
    put_findings(text, x, first, second);
    verdict_line(text, verdict)
}

// The text of a judging's answer at the front of `out`, and its length; the records of its cycles stand at the front of `first` and `second`.
pub fn put_judged<'a>(
    judged: Result<Report, Refusal>,
    first: &'a [u8],
    second: &'a [u8],
    out: &mut [u8],
) -> usize
    requires { Room out.old 0 (judged_text judged first.now second.now) × JudgedWhole judged first.now second.now }
    ensures { Written out.old 0 (judged_text judged first.now second.now) out.new result }
{
    let mut text = Text { out, at: 0 };
    match judged {
        Err(r) => put_refused(&mut text, r.told()),
        Ok(x) => {
            let found = x.findings;
            let verdict = x.verdict;
            put_report(&mut text, x.events, found, verdict, first, second);
        }
    }
    text.at
}

// The text of a table's answer at the front of `out`, and its length.
fn put_answer(table: &[u8], out: &mut [u8]) -> usize
    requires { longest ≤ length out.old }
    ensures { TextAt table.now out.new result }
{
    let mut first = [0u8; LIMIT];
    let mut second = [0u8; LIMIT];
    let judged = judge::judge(table, &mut first, &mut second);
    put_judged(judged, &first, &second, out)
}

// Writes the answer of a judging as text: the report's lines, or the refusal's.
pub fn write_answer(table: &[u8], out: &mut [u8]) -> Result<usize, Refusal>
    ensures { WriteAnswer table.now out.old out.new result }
{
    let mut text = [0u8; TEXT];
    let len = put_answer(table, &mut text);
    hand_over(&text[..len], out)
}
