// The lent table: any word of it, any part of it. Words past the end read as 0, so that every function here answers for any words.
#![tactic(auto)]

pub mod layout;

ghost use Rattle.std.specs.Prelude.{◌≡◌, ◌+◌, ◌*◌, ◌<◌, ◌≤◌, take, drop};
ghost use Rattle.paper.specs.Table.{word, pattern_words_in, object_domains_in};
ghost use Rattle.paper.specs.Table.{function_domains_in, read_count, write_count, first_descriptor};
ghost use Rattle.table.specs.Reach.{word_values, reach};

use crate::layout::entry_at;

// The word at a place.
pub fn word(t: &[u16], at: usize) -> u16
    ensures { result ≡ word t.now at }
{
    t.get(at).copied().unwrap_or(0)
}

// The word at a place, as a number to count and index with.
pub fn count(t: &[u16], at: usize) -> usize
    ensures { (result ≡ word t.now at) × (result < word_values) }
{
    usize::from(word(t, at))
}

// So many words from a place on, or as many as there are.
// `text_bytes::part` takes an end in place of the count: a body for both would be no plainer than either.
pub fn part(t: &[u16], at: usize, n: usize) -> &[u16]
    ensures { result.now ≡ take n (drop at t.now) }
{
    let rest = &t[at.min(t.len())..];
    &rest[..n.min(rest.len())]
}

// The domain of each object.
pub fn objects(t: &[u16]) -> &[u16]
    ensures { result.now ≡ object_domains_in t.now }
{
    part(t, layout::OBJECTS_AT, count(t, layout::OBJECT_COUNT_AT))
}

// The domain of each function.
pub fn functions(t: &[u16]) -> &[u16]
    ensures { result.now ≡ function_domains_in t.now }
{
    part(t, layout::FUNCTIONS_AT, count(t, layout::FUNCTION_COUNT_AT))
}

// The pattern of the context at a place.
pub fn pattern_at(t: &[u16], at: usize) -> &[u16]
    requires { at ≤ reach }
    ensures { result.now ≡ pattern_words_in t.now at }
{
    part(t, at + layout::ELEMENTS_AT, count(t, at))
}

// How many descriptors entry k has.
pub fn descriptors_of(t: &[u16], k: usize) -> usize
    requires { k ≤ word_values }
    ensures { (result ≡ read_count t.now k + write_count t.now k) × (result ≤ 2 * word_values) }
{
    let at = entry_at(k);
    count(t, at + layout::READS_AT) + count(t, at + layout::WRITES_AT)
}

// How many descriptors the first n entries have.
pub fn first_descriptor(t: &[u16], n: usize) -> usize
    requires { n ≤ word_values }
    ensures { (result ≡ first_descriptor t.now n) × (result ≤ 2 * word_values * n) }
{
    let mut sum = 0;
    for k in 0..n {
        sum += descriptors_of(t, k);
    }
    sum
}
