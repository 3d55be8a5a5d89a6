// What the programs of the gate share: words on standard output, and tables and records to ask with.
#![tactic(auto)]

pub mod examples;
pub mod large;
pub mod records;
pub mod say;
pub mod script;
