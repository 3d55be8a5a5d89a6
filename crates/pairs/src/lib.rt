// Pairs of numbers that rows tell: rows of pairs that are asked for, and the least pair.
#![tactic(auto)]

pub mod asked;
pub mod least;
pub mod twice;
