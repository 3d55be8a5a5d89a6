// The judge under a C name, for the benchmark: a static library.
#![tactic(auto)]

ghost use Rattle.judge_c.specs.Called.{WriteAnswerCalled};

use lines::write_answer;

// `lines::write_answer`: how many bytes of the answer were written, and 0 where it has no room.
#[unsafe(no_mangle)]
pub extern "C" fn tweedstile_write_answer(table: &[u8], out: &mut [u8]) -> usize
    ensures { WriteAnswerCalled table.now out.old out.new result }
{
    match write_answer(table, out) {
        Err(_) => 0,
        Ok(len) => len,
    }
}
