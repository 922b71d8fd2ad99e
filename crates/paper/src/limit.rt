// The limits: specs/Limits.antt and specs/Scalars.antt say them from document 01, and the proofs hold these numbers to those.
pub const TEXT_BYTES: usize = 65536;

pub const NAME_BYTES: usize = 64;

pub const IDENTIFIER_BYTES: usize = 128;

pub const LINE_DIGITS: usize = 6;

pub const DOMAINS: usize = 128;

pub const MEMBERS: usize = 1024;

pub const ENTRIES: usize = 128;

pub const ELEMENTS: usize = 16;

pub const DESCRIPTORS: usize = 256;

pub const TABLE_WORDS: usize = 16384;

pub const FRAMES: usize = 64;

pub const WITNESS_WORDS: usize = 30;
