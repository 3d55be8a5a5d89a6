// Monday's figures over a batch, by a reader that hands out one table after another.
#![tactic(auto)]

ghost use Rattle.std.specs.Prelude.{◌≡◌, false};
ghost use Rattle.batches.specs.Batch.{end, end_of, standing};
ghost use Rattle.batches.specs.Reading.{is_table};
ghost use Rattle.monday.specs.Monday.{MondayOf};

use batches::{Item, is_table};
use counting::with_table;
use reader::Reader;
use refusals::Refusal;
use tally::Figures;

// The figures over the tables of a batch, and how it ended. A batch refused with 1 has no figures: they are those of no table then.
#[derive(Drop)]
pub struct Monday {
    pub figures: Figures,
    pub ending: Result<(), Refusal>,
}

// No table stands where the batch has ended.
fn closed(figures: Figures, item: Item) -> Monday
    requires { is_table (standing item) ≡ false }
    ensures { (result.figures ≡ figures) × (end (end_of result.ending) ≡ standing item) }
{
    match item {
        Item::Ended(ending) => Monday { figures, ending },
        Item::Table(_, _) => Monday {
            figures,
            ending: Ok(()),
        },
    }
}

// Monday's figures.
pub fn figures_of(batch: &[u8]) -> Monday
    ensures { MondayOf batch.now result }
{
    let mut reader = Reader::new(batch);
    let mut figures = Figures::none();
    while is_table(reader.item()) {
        figures = with_table(figures, reader.table());
        reader = reader.next();
    }
    closed(figures, reader.item())
}
