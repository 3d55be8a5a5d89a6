// What is found of each finding of a table, from its columns and from rows of its relations.
#![tactic(auto)]

pub mod pair;
pub mod reads;
pub mod sequential;
pub mod writes;
