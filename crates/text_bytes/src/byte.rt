// The bytes that have a meaning of their own on a page: specs/Text.antt of crate paper names them too, and the proofs hold these to those.
pub const LINE_FEED: u8 = b'\n';

pub const CARRIAGE_RETURN: u8 = b'\r';

pub const SPACE: u8 = b' ';

pub const HASH: u8 = b'#';

pub const COMMA: u8 = b',';

pub const OPEN_BRACKET: u8 = b'[';

pub const CLOSE_BRACKET: u8 = b']';

pub const BAR: u8 = b'|';
