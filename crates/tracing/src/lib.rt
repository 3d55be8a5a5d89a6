// The plain engine's steps of wb0 and among SC records, and the least cycle of either, in rows of working room: no relation is kept.
#![tactic(auto)]

mod around;
pub mod cycles;
pub mod layers;
pub mod sequential;
pub mod writes;
