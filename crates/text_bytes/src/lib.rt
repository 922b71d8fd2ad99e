// Stretches of bytes: equal ones, the way to a byte, and the classes of bytes that scalars are made of.
#![tactic(auto)]

pub mod byte;

ghost use Rattle.std.specs.Prelude.{◌≡◌, ℕ, Bool, ◌+◌, ◌-◌, ◌≤◌, eqb, length, take, drop, position};
ghost use Rattle.paper.specs.Common.{within, same, is_front_of};
ghost use Rattle.paper.specs.Scalars.{is_letter, is_digit, name_byte, identifier_byte, identifier_first};
ghost use Rattle.laws.specs.Pieces.{before};
ghost use Rattle.text_bytes.specs.Classes.{part_of, run};

// The two hold the same bytes.
pub fn same(x: &[u8], y: &[u8]) -> bool
    ensures { result ≡ same x.now y.now }
{
    x == y
}

// The stretch begins with the key.
pub fn is_front_of(key: &[u8], s: &[u8]) -> bool
    ensures { result ≡ is_front_of key.now s.now }
{
    s.starts_with(key)
}

// The place of the first c, if it stands there.
fn place_of(s: &[u8], c: u8) -> Option<usize>
    ensures { result ≡ position (λ b. eqb b c) s.now }
{
    s.iter().position(|b| *b == c)
}

// The place of the first c from `at` on, or the end.
pub fn find(s: &[u8], at: usize, c: u8) -> usize
    ensures { result ≡ at + before c (drop at s.now) }
{
    let rest = s.get(at..).unwrap_or(&[]);
    at + place_of(rest, c).unwrap_or(rest.len())
}

// From a start to an end: of both, only what stands within the bytes counts. Most parts stand within, and are not cut.
pub fn part(t: &[u8], start: usize, end: usize) -> &[u8]
    ensures { result.now ≡ take (end - start) (drop start t.now) }
{
    match t.get(start..end) {
        Some(part) => part,
        None => t.get(start..end.min(t.len())).unwrap_or(&[]),
    }
}

pub fn within(low: u8, high: u8, b: u8) -> bool
    ensures { result ≡ within low high b }
{
    (low <= b) & (b <= high)
}

fn is_letter(b: u8) -> bool
    ensures { result ≡ is_letter b }
{
    within(b'A', b'Z', b) | within(b'a', b'z', b)
}

pub fn is_digit(b: u8) -> bool
    ensures { result ≡ is_digit b }
{
    within(b'0', b'9', b)
}

// Which bytes may stand in an identifier, sixteen a row: `0` for those that may not, `2` for the one that stands between its parts.
pub static IDENTIFIER: [u8; 256] = *b"\
    0000000000000000\
    0000000000000000\
    0100111011110111\
    1111111111011111\
    1111111111111111\
    1111111111101011\
    1111111111111111\
    1111111111102010\
    0000000000000000\
    0000000000000000\
    0000000000000000\
    0000000000000000\
    0000000000000000\
    0000000000000000\
    0000000000000000\
    0000000000000000";

// Which bytes may stand in a name, which is one part.
pub static NAME: [u8; 256] = *b"\
    0000000000000000\
    0000000000000000\
    0000000000000010\
    1111111111000000\
    0111111111111111\
    1111111111100001\
    0111111111111111\
    1111111111100000\
    0000000000000000\
    0000000000000000\
    0000000000000000\
    0000000000000000\
    0000000000000000\
    0000000000000000\
    0000000000000000\
    0000000000000000";

// The test of a byte of an identifier: one look in the table.
pub fn identifier_byte(b: u8) -> bool
    ensures { result ≡ identifier_byte b }
{
    IDENTIFIER[b as usize] != b'0'
}

pub fn name_byte(b: u8) -> bool
    ensures { result ≡ name_byte b }
{
    NAME[b as usize] == b'1'
}

pub fn identifier_first(b: u8) -> bool
    ensures { result ≡ identifier_first b }
{
    is_letter(b) | is_digit(b) | (b == b'/') | (b == b'.') | (b == b'_')
}

// The bytes that a part of a scalar is made of.
pub trait PartBytes {
    ghost test: { ℕ → Bool };

    fn has(b: u8) -> bool
        ensures { result ≡ test b };
}

// A name is one part.
pub struct OfName;

impl PartBytes for OfName {
    ghost test = { part_of name_byte };

    fn has(b: u8) -> bool {
        NAME[b as usize] == b'1'
    }
}

// `|` stands between the parts of an identifier.
pub struct OfIdentifier;

impl PartBytes for OfIdentifier {
    ghost test = { part_of identifier_byte };

    fn has(b: u8) -> bool {
        IDENTIFIER[b as usize] == b'1'
    }
}

// Where a part ends that begins at a place. Two at a time, then the one that may be left: `position` was a fifth slower on a page.
pub fn part_end<B: PartBytes>(s: &[u8], at: usize) -> usize
    requires { at ≤ length s.now }
    ensures { result ≡ at + run B.test (drop at s.now) }
{
    let mut i = at;
    while i + 2 <= s.len() {
        if !B::has(s[i]) {
            return i;
        }
        if !B::has(s[i + 1]) {
            return i + 1;
        }
        i += 2;
    }
    if s.len() <= i {
        return i;
    }
    if B::has(s[i]) {
        return i + 1;
    }
    i
}
