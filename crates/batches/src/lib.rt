// What a batch holds: at a place a table, or the batch's end.
#![tactic(auto)]

ghost use Rattle.std.specs.Prelude.{◌≡◌, ◌+◌, ◌≤◌, length};
ghost use Rattle.batches.specs.Batch.{most, mark_is, headed, refused, end, standing, stands_at};
ghost use Rattle.batches.specs.Reading.{is_table, bytes_of, place_after};
ghost use Rattle.refusals.specs.Numbers.{told};

use record::word_of;
use refusals::Refusal;

// "a batch of at most 60,000 bytes"
pub const MOST: usize = 60000;

// Before each table: the mark in two bytes, and the length in two.
const HEADER: usize = 4;

// What stands at a place: a table from a byte to before another, or the end of the batch, cleanly or with a refusal. Both are answers, and the end is what
// a caller reads on for: no `Result` of a table, whose clean end would be an error.
#[derive(Drop)]
pub enum Item {
    Table(usize, usize),
    Ended(Result<(), Refusal>),
}

fn refused(why: Refusal) -> Item
    ensures { standing result ≡ end (refused (told why)) }
{
    Item::Ended(Err(why))
}

// "the two-byte mark 54 42 (hex)"
fn is_mark(first: u8, second: u8) -> bool
    ensures { result ≡ mark_is first second }
{
    (first == 0x54) & (second == 0x42)
}

// What a header at a place says in a batch of `size` bytes: "14 for a wrong batch mark, then 15 if fewer bytes are left than the length says".
fn headed(mark: bool, len: u16, at: usize, size: usize) -> Item
    requires { (at + 4 ≤ size) × (size ≤ most) }
    ensures { standing result ≡ headed mark len at size }
{
    let from = at + HEADER;
    if mark {
        let long = len as usize;
        if long <= size - from {
            return Item::Table(from, from + long);
        }
        return refused(Refusal::Short(at));
    }
    refused(Refusal::Header(at))
}

// What stands at a place of a batch.
pub fn item_at(batch: &[u8], at: usize) -> Item
    ensures { standing result ≡ stands_at batch.now at }
{
    let size = batch.len();
    if MOST < size {
        return refused(Refusal::Length);
    }
    if size <= at {
        return Item::Ended(Ok(()));
    }
    if size - at < HEADER {
        return refused(Refusal::Short(at));
    }
    let mark = is_mark(batch[at], batch[at + 1]);
    let len = word_of(batch[at + 2], batch[at + 3]);
    headed(mark, len, at, size)
}

// Whether a table stands there.
pub fn is_table(item: Item) -> bool
    ensures { result ≡ is_table (standing item) }
{
    matches!(item, Item::Table(_, _))
}

// The bytes of the table at a place, a part of the batch from its middle; no byte where the batch has ended.
pub fn table_at(batch: &[u8], at: usize) -> &[u8]
    ensures { result.now ≡ bytes_of batch.now (stands_at batch.now at) }
{
    match item_at(batch, at) {
        Item::Table(from, to) => &batch[from..to],
        Item::Ended(_) => &batch[0..0],
    }
}

// The place after what stands at a place.
pub fn place_after(batch: &[u8], at: usize) -> usize
    ensures { result ≡ place_after at (stands_at batch.now at) }
{
    match item_at(batch, at) {
        Item::Table(_, to) => to,
        Item::Ended(_) => at,
    }
}
