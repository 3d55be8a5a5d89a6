// A record fetched from a table: its own sixteen bytes, and whether the fetch is refused (by 1 or by 13).
#![tactic(auto)]

ghost use Rattle.std.specs.Prelude.{◌≡◌};
ghost use Rattle.fetch.specs.Fetched.{fetched, FetchAnswer};

use record::places::SIZE;
use refusals::Refusal;
use table::length_ok;

// Whether a fetch of record n is refused, by 1 or by 13.
pub fn refusal_of_fetch(table: &[u8], n: usize) -> Result<(), Refusal>
    ensures { FetchAnswer table.now n result }
{
    let len = table.len();
    if length_ok(len) {
        if n < len / SIZE {
            return Ok(());
        }
        return Err(Refusal::Past(n));
    }
    Err(Refusal::Length)
}

// Record n's own sixteen bytes, or an empty part where the fetch is refused.
pub fn fetch(table: &[u8], n: usize) -> &[u8]
    ensures { result.now ≡ fetched table.now n }
{
    match refusal_of_fetch(table, n) {
        Ok(()) => slots::part_at(table, n),
        Err(_) => &table[..0],
    }
}
