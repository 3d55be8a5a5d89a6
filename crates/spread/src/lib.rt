// Relations that spread along steps that columns give, row by row.
#![tactic(auto)]

pub mod apart;
pub mod forks;
pub mod onward;
