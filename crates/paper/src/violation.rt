// The violations of a verdict, by what they say (document 01, "What a match is").
pub const TOP_UNLISTED: u16 = 1;

pub const TARGET_UNLISTED: u16 = 2;

pub const NO_ENTRY_MATCHES: u16 = 3;

pub const NONE_GRANTS: u16 = 4;
