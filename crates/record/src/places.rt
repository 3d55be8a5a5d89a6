// Which byte of a record holds what.

// How many bytes a record is.
pub const SIZE: usize = 16;

// "mark 45 56 (hex)"
pub const MARK: usize = 0;

pub const MARK_SECOND: usize = 1;

pub const KIND: usize = 2;

pub const ORDER: usize = 3;

pub const THREAD: usize = 4;

pub const PARENT: usize = 5;

pub const SOURCE: usize = 6;

pub const LOCATION: usize = 7;

pub const FLAGS: usize = 8;

// The two values, low byte first.
pub const READ: usize = 10;

pub const READ_HIGH: usize = 11;

pub const WRITTEN: usize = 12;

pub const WRITTEN_HIGH: usize = 13;

// The kinds.
pub const INIT: u8 = 0;

pub const LOAD: u8 = 1;

pub const STORE: u8 = 2;

pub const UPDATE: u8 = 3;

// The byte of a link that leads nowhere.
pub const NONE: u8 = 255;
