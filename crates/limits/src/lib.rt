// How many records a table may have: the one place that says it in code.
#![tactic(auto)]

pub const LIMIT: usize = 200;

// How many a small one has at most: it is judged in less room, so that less has to be cleared.
pub const SMALL: usize = 64;

// How many a middling one has at most.
pub const MIDDLE: usize = 128;
