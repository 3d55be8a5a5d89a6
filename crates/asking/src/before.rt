// Whether a happens before b, by "two questions that ask each other", "always at a smaller record number".
ghost use Rattle.laws.specs.Says.{Says};
ghost use Rattle.model.specs.Table.{Parent};
ghost use Rattle.model.specs.Relations.{Sw, Hb};
ghost use Rattle.table.specs.Events.{events_of};
ghost use Rattle.facts.specs.Sound.{One};
ghost use Rattle.links.specs.Links.{Leads};
ghost use Rattle.asking.specs.LastStep.{ByPo, BySw, AskedLast};

use crate::tree::ancestor;
use facts::{acquiring, parent, releasing, source};

// The record of which a last step of po to b comes: its parent.
fn po_source(table: &[u8], b: usize) -> Option<u8>
    requires { One table.now b }
    ensures { Leads result (λ p. Parent (events_of table.now) p b) }
{
    parent(table, b)
}

// That of a last step of sw: "from a releasing source to an acquiring read of it".
fn sw_source(table: &[u8], b: usize) -> Option<u8>
    requires { One table.now b }
    ensures { Leads result (λ s. Sw (events_of table.now) s b) }
{
    let Some(s) = source(table, b) else {
        return None;
    };
    if acquiring(table, b) & releasing(table, s as usize) {
        Some(s)
    } else {
        None
    }
}

// "one for a last step of po": the parent of b is a, or a happens before the parent. Nothing happens before an earlier record.
#[cycle(by_po_step_by_sw_step)]
fn by_po_step(table: &[u8], a: usize, b: usize) -> bool
    requires { One table.now b }
    ensures { Says result (ByPo (events_of table.now) a b) }
{
    let Some(number) = po_source(table, b) else {
        return false;
    };
    let p = number as usize;
    if p <= a {
        return p == a;
    }
    by_po_step(table, a, p) || by_sw_step(table, a, p)
}

// "and one for a last step of sw": b reads from a, or a happens before the source. It is asked where the other question was answered no: a source
// above b was asked about then, and is not asked again.
#[cycle(by_po_step_by_sw_step)]
fn by_sw_step(table: &[u8], a: usize, b: usize) -> bool
    requires { AskedLast table.now a b }
    ensures { Says result (BySw (events_of table.now) a b) }
{
    let Some(number) = sw_source(table, b) else {
        return false;
    };
    let s = number as usize;
    if s <= a {
        return s == a;
    }
    !ancestor(table, s, b) && (by_po_step(table, a, s) || by_sw_step(table, a, s))
}

// Whether a happens before b: the last step is one of po, or one of sw.
pub fn before(table: &[u8], a: usize, b: usize) -> bool
    requires { One table.now b }
    ensures { Says result (Hb (events_of table.now) a b) }
{
    by_po_step(table, a, b) || by_sw_step(table, a, b)
}
