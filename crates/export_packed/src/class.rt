// The classes of the answers (crates/paper/specs/Answers.antt), as numbers since C gets them (include/dovetenon.h).
// No answer has class 0.
pub const REFUSED: u16 = 1;

// Of a verdict.
pub const VIOLATION: u16 = 2;

pub const INSIDE: u16 = 3;

pub const GRANTED: u16 = 4;

// Of a report.
pub const CLASH: u16 = 2;

pub const CLEAR: u16 = 3;

// Of a reading.
pub const ACCEPTED: u16 = 2;

// Of a filling.
pub const WRITTEN: u16 = 2;

// Of name lookup.
pub const NAME_NONE: u16 = 1;

pub const NAME_FOUND: u16 = 2;

// Of a listing.
pub const LISTED: u16 = 2;
