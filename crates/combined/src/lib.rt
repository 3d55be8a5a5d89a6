// Relations that are combined, row by row, from columns and from other relations.
#![tactic(auto)]

pub mod others;
pub mod race;
pub mod sequential;
pub mod writes;
