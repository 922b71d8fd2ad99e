// Where each word of an index stands: specs/Words.antt says it, and the proofs hold these numbers to that.
pub const MULTIPLIER_AT: usize = 0;

pub const HEADS_AT: usize = 1;

pub const NAMES_AT: usize = 1025;

pub const NAME_SIZE: usize = 7;

// Of a name.
pub const START_AT: usize = 0;

pub const END_AT: usize = 1;

pub const HASH_AT: usize = 2;

// The first of its four links.
pub const LINKS_AT: usize = 3;
