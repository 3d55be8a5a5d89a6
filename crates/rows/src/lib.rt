// Relations on small numbers held in rows of 64-bit words, and the sets that their rows are.
#![tactic(auto)]

pub mod bits;
pub mod led;
pub mod numbers;
pub mod row;
pub mod search;
pub mod set;
pub mod whole;
