// The listing: the row of each place (rows.rt), and which of its keys a line begins with.
#![tactic(auto)]

pub mod rows;

ghost use Rattle.std.specs.Prelude.{◌≡◌, false, ◌+◌, ◌≤◌, ◌&&◌, ◌||◌, not, eqb, length, MatchBool};
ghost use Rattle.std.specs.List.{list_all};
ghost use Rattle.paper.specs.Common.{is_front_of};
ghost use Rattle.paper.specs.Text.{space, column};
ghost use Rattle.paper.specs.Listing.{dashed, begins_block};
ghost use Rattle.text_keys.specs.Rows.{key_text, most_key};
ghost use Rattle.text_keys.specs.Asked.{Alike, Finds};

use crate::rows::{Key, Look};
use text_bytes::byte;

// The colon is counted, LF is not.
pub fn key_size(key: Key) -> usize
    ensures { (result ≡ length (key_text key)) × (result ≤ most_key) }
{
    key.look().text.len()
}

// Nothing but spaces.
fn is_blank(s: &[u8]) -> bool
    ensures { result ≡ list_all (λ b. eqb b space) s.now }
{
    s.iter().all(|b| *b == byte::SPACE)
}

// The line stands at column k: so many spaces, and then no other. The bytes behind those are not looked at.
fn has_column(l: &[u8], k: usize) -> bool
    ensures { result ≡ eqb (column l.now) k }
{
    if l.len() < k {
        return false;
    }
    is_blank(&l[..k]) & !l[k..].starts_with(b" ")
}

// The line stands as the key does: at its column, behind a dash where the key has one.
fn alongside(key: Look, l: &[u8]) -> bool
    ensures { result ≡ (eqb (column l.now) key.column && (not key.dash || dashed l.now)) }
{
    if !has_column(l, key.column) {
        return false;
    }
    !key.dash || l[key.column..].starts_with(b"- ")
}

// A place, and how long its key is.
#[derive(Clone, Copy)]
pub struct Placed {
    pub place: usize,
    pub length: usize,
}

// Eight bytes of the key, from a place on, are the line's. The loop has no exit, so that they are compared together.
fn eight_alike(key: &[u8], l: &[u8], i: usize) -> bool
    requires { (i + 8 ≤ length key.now) × (i + 8 ≤ length l.now) }
    ensures { MatchBool result (Alike key.now l.now i (i + 8)) (is_front_of key.now l.now ≡ false) }
{
    let mut alike = true;
    for k in 0..8 {
        alike = alike & (key[i + k] == l[i + k]);
    }
    alike
}

// The line begins with the key. The key's last eight bytes are looked at first, since keys that may stand for one another begin alike. The
// library's `starts_with` is a call where it knows no length, and a line asks several keys: so it is asked of short keys alone.
fn begins_with(l: &[u8], key: &[u8]) -> bool
    ensures { result ≡ is_front_of key.now l.now }
{
    let n = key.len();
    if l.len() < n {
        return false;
    }
    if n < 8 {
        return l.starts_with(key);
    }
    let last = n - 8;
    if !eight_alike(key, l, last) {
        return false;
    }
    let mut i = 0;
    while i < last {
        if !eight_alike(key, l, i) {
            return false;
        }
        i += 8;
    }
    true
}

// Which of these places a line has by its key.
pub fn place_of(places: &[usize], l: &[u8]) -> Option<Placed>
    ensures { Finds places.now l.now result }
{
    for place in places {
        let key = rows::row_at(*place).key.look().text;
        if begins_with(l, key) {
            return Some(Placed {
                place: *place,
                length: key.len(),
            });
        }
    }
    None
}

// A line stands where the block that begins with these places would.
pub fn begins_block(places: &[usize], l: &[u8]) -> bool
    ensures { result ≡ begins_block places.now l.now }
{
    match places.first() {
        Some(place) => alongside(rows::row_at(*place).key.look(), l),
        None => false,
    }
}
