// Whether a name stands twice in a list. For n names the time is that of a sort, n log n, whatever the names are.
// The places where the names begin are sorted by name. Where the names then ascend, and every name begins at one of the places, no two are the same.
// That the sort sorts is not proved, and need not be: both are tested, and where a test fails the names are looked for behind themselves.
#![tactic(auto)]

ghost use Rattle.std.specs.Prelude.{◌≡◌, true, false, ◌&&◌, [], ◌+◌, ◌-◌, ◌<◌, ◌≤◌, leb, length, take, drop};
ghost use Rattle.paper.specs.Common.{among};
ghost use Rattle.paper.specs.Limits.{text_bytes};
ghost use Rattle.paper.specs.Lists.{spaced, elements_in};
ghost use Rattle.paper.specs.Rules.{repeats};
ghost use Rattle.text_lists.specs.Walk.{elements_left, SpacedFrom};

use std::cmp::Ordering;
use text_order::{all_ranked, ascending, is_under, word_at};

// Names begin two bytes apart at least, as a comma and a space stand between them: a text has no more than these.
const MOST_NAMES: usize = 32769;

// Writes the places where the names begin, and answers how many there are.
fn write_places(s: &[u8], places: &mut [u32]) -> usize
    requires { length s.now ≤ text_bytes }
    ensures { (length places.new ≡ length places.old) × (result ≤ length places.old) }
{
    let mut at = text_lists::first_element(s);
    for (n, place) in places.iter_mut().enumerate() {
        let Some(element) = text_lists::element_at(s, at) else {
            return n;
        };
        *place = at as u32;
        at = element.next;
    }
    places.len()
}

// Sorts the places by their names. The sort asks only whether one goes before another, so names that are the same may come as greater, and
// may end up in either order.
fn sort(s: &[u8], places: &mut [u32])
    ensures { length places.new ≡ length places.old }
{
    places.sort_unstable_by(|a, b| {
        if is_under(s, *a as usize, *b as usize) {
            Ordering::Less
        } else {
            Ordering::Greater
        }
    });
}

fn put(words: &mut [u32], i: usize, w: u32)
    ensures { length words.new ≡ length words.old }
{
    if words.len() <= i {
        return;
    }
    words[i] = w;
}

// The number of each of the first n places is written at half of the place: two names never begin side by side.
fn write_ranks(places: &[u32], n: usize, ranks: &mut [u32])
    requires { n ≤ text_bytes }
{
    for j in 0..n {
        put(ranks, word_at(places, j) / 2, j as u32);
    }
}

// The name stands in the list from a place on.
fn stands_from(x: &[u8], s: &[u8], from: usize) -> bool
    requires { SpacedFrom s.now from }
    ensures { result ≡ among x.now (elements_left s.now from) }
{
    let mut at = from;
    while let Some(element) = text_lists::element_at(s, at) {
        if text_bytes::same(x, &s[at..element.end]) {
            return true;
        }
        at = element.next;
    }
    false
}

// The name from `at` to `end` begins no earlier than `from`, and stands again from `next` on.
fn stands_again(s: &[u8], from: usize, at: usize, end: usize, next: usize) -> bool
    requires at_le_end { (at ≤ end) × (end ≤ length s.now) }
    requires spaced_from { SpacedFrom s.now next }
    ensures { result ≡ (leb from at && among (take (end - at) (drop at s.now)) (elements_left s.now next)) }
{
    if at < from {
        return false;
    }
    stands_from(&s[at..end], s, next)
}

// A name that begins at `from` or behind it stands again behind itself: with `from` 0 that is any name.
fn repeats_from(s: &[u8], from: usize) -> bool
    requires { spaced 0 s.now ≡ true }
    ensures when_true { result ≡ true → repeats [] (elements_in s.now) ≡ true }
    ensures when_false { result ≡ false → from ≡ 0 → repeats [] (elements_in s.now) ≡ false }
{
    let mut at = text_lists::first_element(s);
    while let Some(element) = text_lists::element_at(s, at) {
        if stands_again(s, from, at, element.end, element.next) {
            return true;
        }
        at = element.next;
    }
    false
}

// Writes the places, sorted by name, and their ranks; answers how many there are.
fn sorted_places(s: &[u8], places: &mut [u32], ranks: &mut [u32]) -> usize
    requires s_len_bound { length s.now ≤ text_bytes }
    requires places_len_bound { (length places.old ≤ text_bytes) × (length ranks.old ≡ length places.old) }
    ensures { result ≤ length places.new }
{
    let n = write_places(s, places);
    sort(s, &mut places[..n]);
    write_ranks(places, n, ranks);
    n
}

// One of the names between a list's brackets stands there twice.
pub fn names_twice(s: &[u8]) -> bool
    requires s_value { spaced 0 s.now ≡ true }
    requires s_len_bound { length s.now ≤ text_bytes }
    ensures { result ≡ repeats [] (elements_in s.now) }
{
    let mut places = [0u32; MOST_NAMES];
    let mut ranks = [0u32; MOST_NAMES];
    let n = sorted_places(s, &mut places, &mut ranks);
    let last = ascending(s, &places, n);
    if all_ranked(s, &places, &ranks, last) {
        return false;
    }
    // two names that follow one another and do not ascend are the same: the one that stands first in the list has its twin behind it
    let from = word_at(&places, last).min(word_at(&places, last + 1));
    if repeats_from(s, from) {
        return true;
    }
    repeats_from(s, 0)
}
