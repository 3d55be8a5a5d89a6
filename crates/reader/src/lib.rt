// A reader that holds the caller's batch and a place in it, and hands out one table after another. Each of its functions takes it apart and calls one of
// `batches` on the slice and the number.
#![tactic(auto)]

ghost use Rattle.std.specs.Prelude.{◌≡◌};
ghost use Rattle.batches.specs.Batch.{standing, stands_at};
ghost use Rattle.batches.specs.Reading.{bytes_of, place_after};

use batches::Item;

#[derive(Clone, Copy)]
pub struct Reader<'a> {
    pub batch: &'a [u8],
    pub at: usize,
}

impl<'a> Reader<'a> {
    // The reader of a batch, at its begin.
    pub fn new(batch: &'a [u8]) -> Reader<'a>
        ensures { (result.batch ≡ batch.entry) × (result.at ≡ 0) }
    {
        Reader { batch, at: 0 }
    }

    // What stands at its place.
    pub fn item(self) -> Item
        ensures { standing result ≡ stands_at self.entry.batch.now self.entry.at }
    {
        batches::item_at(self.batch, self.at)
    }

    // The table at its place, a part of the batch; no byte where the batch has ended.
    pub fn table(self) -> &'a [u8]
        ensures { result.now ≡ bytes_of self.entry.batch.now (stands_at self.entry.batch.now self.entry.at) }
    {
        batches::table_at(self.batch, self.at)
    }

    // The reader moved on past the table at its place; where the batch has ended it stays.
    pub fn next(self) -> Reader<'a>
        ensures { (result.batch ≡ self.entry.batch) × (result.at ≡ place_after self.entry.at (stands_at self.entry.batch.now self.entry.at)) }
    {
        let at = batches::place_after(self.batch, self.at);
        Reader {
            batch: self.batch,
            at,
        }
    }
}
