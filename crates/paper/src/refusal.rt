// The numbers that come back, by what they say (document 01, "Numbers that come back").
pub const TABLE_TOO_SHORT: u16 = 1;

pub const TEXT_TOO_LONG: u16 = 2;

pub const BAD_BYTE: u16 = 3;

pub const LAYOUT: u16 = 4;

pub const SCALAR: u16 = 5;

pub const COUNT: u16 = 6;

pub const TWICE: u16 = 7;

pub const UNKNOWN: u16 = 8;

pub const EMPTY_FIELD: u16 = 9;

pub const UNBOUND: u16 = 10;

pub const SAME_PRINCIPAL: u16 = 11;

pub const TABLE_ILL_FORMED: u16 = 20;

pub const STACK: u16 = 21;

pub const ALLOCATION_STACK: u16 = 22;

pub const OPERATION: u16 = 23;

pub const OUTPUT_TOO_SHORT: u16 = 30;

pub const FILLED_TOO_LONG: u16 = 31;

pub const WITNESS_TOO_SHORT: u16 = 40;

// The line of a refusal that has none.
pub const NO_LINE: u32 = 0;
