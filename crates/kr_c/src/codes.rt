//! The codes that calls answer.

pub const OK: u32 = 0;

pub const NO: u32 = 1;

pub const TABLE: u32 = 2;

pub const SCRIPT: u32 = 3;

pub const MEMORY: u32 = 4;

pub const CLOSED: u32 = 5;

pub const IS_OPEN: u32 = 6;

pub const MISUSE: u32 = 7;
