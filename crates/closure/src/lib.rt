// One or more steps of a relation, and what another relation leads to their start.
#![tactic(auto)]

pub mod by_stages;
pub mod rising;
