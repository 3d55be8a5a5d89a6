// Monday's figures as text, line by line.
#![tactic(auto)]

ghost use Rattle.std.specs.Prelude.{◌≡◌, ◌++◌, ◌≤◌, length};
ghost use Rattle.findings.specs.Family.{all_in_order, name_of};
ghost use Rattle.batches.specs.Batch.{refused, end_of};
ghost use Rattle.text.specs.Text.{Written, each, spaced};
ghost use Rattle.phrases.specs.Phrases.{line, refused_word};
ghost use Rattle.phrases.specs.Room.{Room};
ghost use Rattle.phrases.specs.Handed.{Front};
ghost use Rattle.tally.specs.Figures.{numbers};
ghost use Rattle.sheet.specs.Sheet.{refused_line, found_line, counts_text, verdicts_text, figures_text, sheet_text};
ghost use Rattle.sheet.specs.Answer.{SheetOf, longest_sheet, WriteFigures};

use findings::Finding;
use monday::{Monday, figures_of};
use phrases::{hand_over, number_line, put_refused};
use refusals::{Refusal, Told};
use tally::{EACH_NUMBER, Figures, NUMBERS};
use text::Text;

// Room for the longest text: `longest_sheet` of the definitions.
pub const SHEET: usize = 21 * (6 + NUMBERS + Finding::COUNT);

// Two numbers, one space before each.
fn put_two(text: &mut Text<'_>, first: usize, second: usize)
    requires { Room text.old.out.now text.old.at (spaced first ++ spaced second) }
    ensures same_reference { text.new.out.ghost_name ≡ text.old.out.ghost_name }
    ensures written { Written text.old.out.now text.old.at (spaced first ++ spaced second) text.new.out.now text.new.at }
{
    text.put_spaced(first);
    text.put_spaced(second)
}

fn refused_line(text: &mut Text<'_>, number: usize, count: usize)
    requires { Room text.old.out.now text.old.at (line refused_word (spaced number ++ spaced count)) }
    ensures same_reference { text.new.out.ghost_name ≡ text.old.out.ghost_name }
    ensures written { Written text.old.out.now text.old.at (line refused_word (spaced number ++ spaced count)) text.new.out.now text.new.at }
{
    text.put(b"refused");
    put_two(text, number, count);
    text.put(b"\n")
}

fn found_line(text: &mut Text<'_>, finding: Finding, count: usize)
    requires { Room text.old.out.now text.old.at (line (name_of finding) (spaced count)) }
    ensures same_reference { text.new.out.ghost_name ≡ text.old.out.ghost_name }
    ensures written { Written text.old.out.now text.old.at (line (name_of finding) (spaced count)) text.new.out.now text.new.at }
{
    number_line(text, finding.name(), count)
}

// A line for each number.
fn refused_lines(text: &mut Text<'_>, counts: [usize; NUMBERS])
    requires { Room text.old.out.now text.old.at (each (refused_line counts) numbers) }
    ensures same_reference { text.new.out.ghost_name ≡ text.old.out.ghost_name }
    ensures written { Written text.old.out.now text.old.at (each (refused_line counts) numbers) text.new.out.now text.new.at }
{
    for (place, number) in EACH_NUMBER.iter().enumerate() {
        refused_line(text, *number, counts[place]);
    }
}

// A line for each finding.
fn found_lines(text: &mut Text<'_>, counts: [usize; Finding::COUNT])
    requires { Room text.old.out.now text.old.at (each (found_line counts) all_in_order) }
    ensures same_reference { text.new.out.ghost_name ≡ text.old.out.ghost_name }
    ensures written { Written text.old.out.now text.old.at (each (found_line counts) all_in_order) text.new.out.now text.new.at }
{
    for (place, finding) in Finding::IN_ORDER.iter().enumerate() {
        found_line(text, *finding, counts[place]);
    }
}

// The tables, the refusals and the findings.
fn put_counts(text: &mut Text<'_>, figures: Figures)
    requires { Room text.old.out.now text.old.at (counts_text figures) }
    ensures same_reference { text.new.out.ghost_name ≡ text.old.out.ghost_name }
    ensures written { Written text.old.out.now text.old.at (counts_text figures) text.new.out.now text.new.at }
{
    number_line(text, b"tables", figures.tables);
    refused_lines(text, figures.refused);
    found_lines(text, figures.found)
}

fn put_verdicts(text: &mut Text<'_>, figures: Figures)
    requires { Room text.old.out.now text.old.at (verdicts_text figures) }
    ensures same_reference { text.new.out.ghost_name ≡ text.old.out.ghost_name }
    ensures written { Written text.old.out.now text.old.at (verdicts_text figures) text.new.out.now text.new.at }
{
    number_line(text, b"consistent", figures.consistent);
    number_line(text, b"inconsistent", figures.inconsistent);
    number_line(text, b"undefined", figures.undefined)
}

fn put_figures(text: &mut Text<'_>, figures: Figures)
    requires { Room text.old.out.now text.old.at (figures_text figures) }
    ensures same_reference { text.new.out.ghost_name ≡ text.old.out.ghost_name }
    ensures written { Written text.old.out.now text.old.at (figures_text figures) text.new.out.now text.new.at }
{
    put_counts(text, figures);
    put_verdicts(text, figures);
    number_line(text, b"largest", figures.largest)
}

// The figures of a batch that ended early, and its refusal; of one refused with 1 that alone.
fn put_early(text: &mut Text<'_>, figures: Figures, told: Told)
    requires { Room text.old.out.now text.old.at (sheet_text figures (refused told)) }
    ensures same_reference { text.new.out.ghost_name ≡ text.old.out.ghost_name }
    ensures written { Written text.old.out.now text.old.at (sheet_text figures (refused told)) text.new.out.now text.new.at }
{
    if told.number == 1 {
        return put_refused(text, told);
    }
    put_figures(text, figures);
    put_refused(text, told)
}

fn put_sheet(text: &mut Text<'_>, figures: Figures, ending: Result<(), Refusal>)
    requires { Room text.old.out.now text.old.at (sheet_text figures (end_of ending)) }
    ensures same_reference { text.new.out.ghost_name ≡ text.old.out.ghost_name }
    ensures written { Written text.old.out.now text.old.at (sheet_text figures (end_of ending)) text.new.out.now text.new.at }
{
    match ending {
        Ok(()) => put_figures(text, figures),
        Err(why) => put_early(text, figures, why.told()),
    }
}

// The text of a batch's figures at the front of `out`, and its length.
fn put_monday(batch: &[u8], out: &mut [u8]) -> usize
    requires { longest_sheet ≤ length out.old }
    ensures { Front (SheetOf batch.now) out.new result }
{
    let monday = figures_of(batch);
    let mut text = Text { out, at: 0 };
    put_sheet(&mut text, monday.figures, monday.ending);
    text.at
}

// Writes Monday's figures over a batch as text.
pub fn write_figures(batch: &[u8], out: &mut [u8]) -> Result<usize, Refusal>
    ensures { WriteFigures batch.now out.old out.new result }
{
    let mut text = [0u8; SHEET];
    let len = put_monday(batch, &mut text);
    hand_over(&text[..len], out)
}
