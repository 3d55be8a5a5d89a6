// Questions on two records that the table itself answers, asked anew each time: nothing is kept. With the crates above it, the plain engine.
#![tactic(auto)]

pub mod before;
pub mod conflict;
pub mod race;
pub mod tree;
