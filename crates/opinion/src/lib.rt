// The third opinion as text: what the plain engine answers to a table of at most 24 records.
#![tactic(auto)]

ghost use Rattle.std.specs.Prelude.{◌≤◌, length};
ghost use Rattle.lines.specs.Room.{longest};
ghost use Rattle.lines.specs.Answer.{TextAt};
ghost use Rattle.opinion.specs.Opinion.{OpinionAt, WriteOpinion};

use limits::LIMIT;
use lines::{TEXT, put_judged};
use phrases::hand_over;
use record::places::SIZE;
use refusals::Refusal;
use text::Text;

// "384 bytes (24 records)": a longer input is not judged.
pub const MOST: usize = 24 * SIZE;

// The text of a table's answer at the front of `out`, and its length.
fn put_answer(table: &[u8], out: &mut [u8]) -> usize
    requires { longest ≤ length out.old }
    ensures { TextAt table.now out.new result }
{
    let mut first = [0u8; LIMIT];
    let mut second = [0u8; LIMIT];
    let judged = plain::judge(table, &mut first, &mut second);
    put_judged(judged, &first, &second, out)
}

// "only `too large`", or the text of the answer.
fn put_opinion(input: &[u8], out: &mut [u8]) -> usize
    requires { longest ≤ length out.old }
    ensures { OpinionAt input.now out.new result }
{
    if MOST < input.len() {
        let mut text = Text { out, at: 0 };
        text.put(b"too large\n");
        return text.at;
    }
    put_answer(input, out)
}

// Writes the third opinion on an input: `too large`, before any test, or the lines that the judge's answer has.
pub fn write_opinion(input: &[u8], out: &mut [u8]) -> Result<usize, Refusal>
    ensures { WriteOpinion input.now out.old out.new result }
{
    let mut text = [0u8; TEXT];
    let len = put_opinion(input, &mut text);
    hand_over(&text[..len], out)
}
