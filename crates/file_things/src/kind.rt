// The kinds of things that a text names: numbers, since they stand in the list that a caller in C gets.
pub const OBJECT_DOMAIN: u32 = 1;

pub const OBJECT: u32 = 2;

pub const SUBJECT_DOMAIN: u32 = 3;

pub const FUNCTION: u32 = 4;

pub const ENTRY: u32 = 5;
