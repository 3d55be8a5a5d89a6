// Records above records, by climbing from parent to parent.
ghost use Rattle.laws.specs.Says.{Says};
ghost use Rattle.model.specs.Relations.{Po, PoDiff};
ghost use Rattle.table.specs.Events.{events_of};
ghost use Rattle.facts.specs.Sound.{One, Two};

use facts::{parent, same_location};

// po: "a before b if a is a proper ancestor of b". What is above b has a smaller number.
pub fn ancestor(table: &[u8], a: usize, b: usize) -> bool
    requires { One table.now b }
    ensures { Says result (Po (events_of table.now) a b) }
{
    match parent(table, b) {
        None => false,
        Some(p) => p as usize == a || ancestor(table, a, p as usize),
    }
}

// po≠: "po between two records that don't both have one and the same location"
pub fn elsewhere(table: &[u8], a: usize, b: usize) -> bool
    requires { Two table.now a b }
    ensures { Says result (PoDiff (events_of table.now) a b) }
{
    ancestor(table, a, b) & !same_location(table, a, b)
}
