// The word of an element of a pattern, as specs/Table.antt says it: `all`, then function n as n + 1, then the subject domains.
pub const ALL: u16 = 0;

pub const FIRST_DOMAIN: u16 = 1025;
