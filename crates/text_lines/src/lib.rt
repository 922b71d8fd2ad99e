// Lines: where one ends and the next begins, its column, whether it is skipped; and the line of the first bad byte.
// How a line ends is known here and nowhere else.
#![tactic(auto)]

ghost use Rattle.std.specs.Prelude.{◌≡◌, cond, not, ◌+◌, ◌^◌, ◌<◌, ◌≤◌, eqb, length, get_or, take, drop};
ghost use Rattle.paper.specs.Common.{all_of};
ghost use Rattle.paper.specs.Text.{line_feed, may_stand, bad_byte_line, column, skipped};
ghost use Rattle.laws.specs.Pieces.{before};
ghost use Rattle.laws.specs.Standing.{all_stand};
ghost use Rattle.text_lines.specs.Plain.{is_plain, line_if};
ghost use Rattle.text_lines.specs.Splits.{Splits, goes_on, held_bytes};

use text_bytes::byte;

// A line that begins at some place of a text: its bytes end at `end`, the next line begins at `next`.
#[derive(Clone, Copy)]
pub struct LineAt {
    pub end: usize,
    pub next: usize,
    pub ended: bool,
}

// None of the N bytes from a place on ends the line. The loop has no exit, so that they are looked at together.
fn go_on<const N: usize>(text: &[u8], i: usize) -> bool
    requires { i + N ≤ length text.now }
    ensures { result ≡ all_of goes_on (take N (drop i text.now)) }
{
    let mut right = true;
    for b in &text[i..i + N] {
        right = right & (*b != byte::LINE_FEED);
    }
    right
}

// A place on the line, less than sixteen bytes before its end: the way there goes by sixteen bytes at a time.
// No `for` steps by sixteen to a place that the loop is to answer.
fn by_sixteen(text: &[u8], at: usize) -> usize
    requires { at < length text.now }
    ensures { (result + before line_feed (drop result text.now) ≡ at + before line_feed (drop at text.now)) × (result ≤ length text.now) }
{
    let mut i = at;
    while i + 16 <= text.len() {
        if !go_on::<16>(text, i) {
            return i;
        }
        i += 16;
    }
    i
}

// N bytes on, where the line goes on so far.
fn past<const N: usize>(text: &[u8], at: usize) -> usize
    requires { at ≤ length text.now }
    ensures { (result + before line_feed (drop result text.now) ≡ at + before line_feed (drop at text.now)) × (result ≤ length text.now) }
{
    if text.len() - at < N {
        return at;
    }
    if go_on::<N>(text, at) {
        return at + N;
    }
    at
}

// A place on the line, less than eight bytes before its end.
fn near_end(text: &[u8], at: usize) -> usize
    requires { at < length text.now }
    ensures { result + before line_feed (drop result text.now) ≡ at + before line_feed (drop at text.now) }
{
    past::<4>(text, past::<8>(text, by_sixteen(text, at)))
}

fn line_end(text: &[u8], at: usize) -> usize
    requires { at < length text.now }
    ensures { result ≡ at + before line_feed (drop at text.now) }
{
    if text[at] == byte::LINE_FEED {
        return at;
    }
    text_bytes::find(text, near_end(text, at), byte::LINE_FEED)
}

// Where the bytes of a line end that begins at `at` and that the LF at `feed` ends: a CR directly before LF belongs to the line's end.
fn bytes_end(text: &[u8], at: usize, feed: usize) -> usize
    requires feed_value { feed ≡ at + before line_feed (drop at text.now) }
    requires feed_in_bounds { feed < length text.now }
    ensures { result ≡ at + held_bytes (drop at text.now) }
{
    if feed <= at {
        return feed;
    }
    if text[feed - 1] == byte::CARRIAGE_RETURN {
        return feed - 1;
    }
    feed
}

pub fn line_at(text: &[u8], at: usize) -> LineAt
    requires { at < length text.now }
    ensures { Splits text.now at result }
{
    let feed = line_end(text, at);
    if feed < text.len() {
        return LineAt {
            end: bytes_end(text, at, feed),
            next: feed + 1,
            ended: true,
        };
    }
    LineAt {
        end: feed,
        next: text.len(),
        ended: false,
    }
}

pub fn column(l: &[u8]) -> usize
    ensures { (result ≡ column l.now) × (result ≤ length l.now) }
{
    for (i, b) in l.iter().enumerate() {
        if *b != byte::SPACE {
            return i;
        }
    }
    l.len()
}

pub fn skipped(l: &[u8]) -> bool
    ensures { result ≡ skipped l.now }
{
    match l.get(column(l)) {
        None => true,
        Some(b) => *b == byte::HASH,
    }
}

// A byte that may stand before any other.
fn is_plain(b: u8) -> bool
    ensures { result ≡ is_plain b }
{
    (b == byte::LINE_FEED) | text_bytes::within(b' ', b'~', b)
}

// Every byte is plain. The loop has no exit, so that it takes many bytes at a time; a text whose last line ends with CR LF does not come to it.
fn all_plain(text: &[u8]) -> bool
    ensures { result ≡ all_of is_plain text.now }
{
    if let [.., byte::CARRIAGE_RETURN, _] = text {
        return false;
    }
    let mut right = true;
    for b in text {
        right = right & is_plain(*b);
    }
    right
}

// A byte may stand before the next one.
fn may_stand(b: u8, next: u8) -> bool
    ensures { result ≡ may_stand b next }
{
    let ends_line = (b == byte::CARRIAGE_RETURN) & (next == byte::LINE_FEED);
    is_plain(b) | ends_line
}

// The byte behind a place; at the end of the text 0, which may stand nowhere.
fn byte_behind(text: &[u8], i: usize) -> u8
    requires { i < length text.now }
    ensures { result ≡ get_or text.now (i + 1) 0 }
{
    text.get(i + 1).copied().unwrap_or(0)
}

// Some byte may not stand. The loop has no exit, so that it takes many bytes at a time; the last byte has none behind it.
fn has_bad_byte(text: &[u8]) -> bool
    ensures { result ≡ not (all_stand text.now) }
{
    let mut right = true;
    for i in 1..text.len() {
        right = right & may_stand(text[i - 1], text[i]);
    }
    if let [.., last] = text {
        return !(right & may_stand(*last, 0));
    }
    !right
}

// The line behind a byte.
fn line_behind(b: u8, line: usize) -> usize
    requires { line < 2 ^ 63 }
    ensures { (result ≡ cond (eqb b line_feed) (line + 1) line) × (result ≤ line + 1) }
{
    if b == byte::LINE_FEED {
        return line + 1;
    }
    line
}

// No line in a refusal that has none: lines are numbered from 1.
pub const NO_LINE: usize = 0;

// The line of the first byte that may not stand, if there is one. Most texts are plain, which is seen in half the time; lines are counted only where a bad byte is.
pub fn bad_byte_line(text: &[u8]) -> Option<usize>
    ensures { result ≡ line_if (bad_byte_line 1 text.now) }
{
    if all_plain(text) {
        return None;
    }
    if !has_bad_byte(text) {
        return None;
    }
    let mut line: usize = 1;
    for (i, b) in text.iter().enumerate() {
        if !may_stand(*b, byte_behind(text, i)) {
            return Some(line);
        }
        line = line_behind(*b, line);
    }
    None
}
