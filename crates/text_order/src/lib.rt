// Places of a list by the names that begin there: which of two is lower, whether all ascend, and whether each name of the list is among them.
#![tactic(auto)]

ghost use Rattle.std.specs.Prelude.{◌≡◌, true, false, [], ◌+◌, ◌≤◌, length, get_or};
ghost use Rattle.paper.specs.Text.{comma};
ghost use Rattle.paper.specs.Lists.{spaced, elements_in};
ghost use Rattle.paper.specs.Rules.{repeats};
ghost use Rattle.text_order.specs.Order.{Under, Ascends, OneOf};

use text_bytes::byte;

// The byte at a place. Behind the text stands a comma, which ends the last name as it ends the others.
fn byte_at(s: &[u8], place: usize) -> u8
    ensures { result ≡ get_or s.now place comma }
{
    if s.len() <= place {
        return byte::COMMA;
    }
    s[place]
}

fn wide(w: u32) -> usize
    ensures { result ≡ w }
{
    w as usize
}

// The word at a place of a list; behind its end 0.
pub fn word_at(words: &[u32], i: usize) -> usize
    ensures { result ≡ get_or words.now i 0 }
{
    if words.len() <= i {
        return 0;
    }
    wide(words[i])
}

// The name that begins at a is below the one that begins at b.
pub fn is_under(s: &[u8], a: usize, b: usize) -> bool
    ensures { result ≡ true → Under s.now a b }
{
    let mut i = a;
    let mut j = b;
    loop {
        let x = byte_at(s, i);
        let y = byte_at(s, j);
        if (x != y) | (x == byte::COMMA) {
            return x < y;
        }
        i += 1;
        j += 1;
    }
}

// The number of the place up to which the names ascend.
pub fn ascending(s: &[u8], places: &[u32], n: usize) -> usize
    requires { n ≤ length places.now }
    ensures ascends { Ascends s.now places.now (result + 1) }
    ensures within { result ≤ n }
{
    let mut last: usize = 0;
    while last + 1 < n {
        if !is_under(s, word_at(places, last), word_at(places, last + 1)) {
            return last;
        }
        last += 1;
    }
    last
}

// The place is one of those up to number `last`: its rank says which.
fn is_ranked(places: &[u32], ranks: &[u32], last: usize, at: usize) -> bool
    ensures { result ≡ true → OneOf places.now (last + 1) at }
{
    let rank = word_at(ranks, at / 2);
    if last < rank {
        return false;
    }
    word_at(places, rank) == at
}

// Every name begins at one of the places whose names ascend.
pub fn all_ranked(s: &[u8], places: &[u32], ranks: &[u32], last: usize) -> bool
    requires s_value { spaced 0 s.now ≡ true }
    requires ascends { Ascends s.now places.now (last + 1) }
    ensures { result ≡ true → repeats [] (elements_in s.now) ≡ false }
{
    let mut at = text_lists::first_element(s);
    while let Some(element) = text_lists::element_at(s, at) {
        if !is_ranked(places, ranks, last, at) {
            return false;
        }
        at = element.next;
    }
    true
}
