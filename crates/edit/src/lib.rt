// Tables made from tables: an event appended, and a table cut down to a selection.
#![tactic(auto)]

pub mod appending;
mod completeness;
pub mod cutting;
mod numbering;
mod writing;
