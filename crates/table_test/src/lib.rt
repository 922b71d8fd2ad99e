// The test that a table is well formed, for any words.
#![tactic(auto)]

ghost use Rattle.std.specs.Prelude.{◌≡◌, ◌+◌, ◌<◌, ◌≤◌, length};
ghost use Rattle.std.specs.List.{list_all};
ghost use Rattle.paper.specs.Common.{up_to};
ghost use Rattle.paper.specs.Limits.{most_entries, most_descriptors, table_words};
ghost use Rattle.paper.specs.Table.{descriptor_at, entry_count};
ghost use Rattle.paper.specs.Table.{counts_fit};
ghost use Rattle.paper.specs.Table.{entries_fit, descriptors_fit};
ghost use Rattle.paper.specs.Table.{principal_size, namespace_at, bound_at, bound_by, well_formed};
ghost use Rattle.table.specs.Reach.{reach};
ghost use Rattle.table_blocks.specs.Parts.{entry_block_fits, descriptor_block_fits, principal_is_new, descriptors_bound};
ghost use Rattle.table_blocks.specs.Parts.{entry_bound, blocks_fit, rest_fits};
ghost use Rattle.table_test.specs.Sums.{weighed, is_other_sum, principal_words, principal_sum, Summed};

use paper::limit;
use table::layout::{descriptor_at, entry_at};
use table::{count, descriptors_of, first_descriptor, layout, part, word};
use table_blocks::{descriptor_fits, entry_fits, is_zero, members_fit};

fn counts_fit(t: &[u16]) -> bool
    ensures { result ≡ counts_fit t.now }
{
    let entries = count(t, layout::ENTRY_COUNT_AT);
    count(t, layout::OBJECT_DOMAIN_COUNT_AT) <= limit::DOMAINS
        && count(t, layout::SUBJECT_DOMAIN_COUNT_AT) <= limit::DOMAINS
        && count(t, layout::OBJECT_COUNT_AT) <= limit::MEMBERS
        && count(t, layout::FUNCTION_COUNT_AT) <= limit::MEMBERS
        && entries <= limit::ENTRIES
        && first_descriptor(t, entries) <= limit::DESCRIPTORS
}

fn entry_block_fits(t: &[u16], k: usize) -> bool
    requires { k < most_entries }
    ensures { result ≡ entry_block_fits t.now k }
{
    let at = entry_at(k);
    if k < count(t, layout::ENTRY_COUNT_AT) {
        entry_fits(t, at)
    } else {
        is_zero(t, at, layout::ENTRY_SIZE)
    }
}

fn entries_fit(t: &[u16]) -> bool
    ensures { result ≡ entries_fit t.now }
{
    (0..limit::ENTRIES).all(|k| entry_block_fits(t, k))
}

fn descriptor_block_fits(t: &[u16], descriptors: usize, d: usize) -> bool
    requires { d < most_descriptors }
    ensures { result ≡ descriptor_block_fits t.now descriptors d }
{
    let at = descriptor_at(d);
    if d < descriptors {
        descriptor_fits(t, at)
    } else {
        is_zero(t, at, layout::DESCRIPTOR_SIZE)
    }
}

fn descriptors_fit(t: &[u16]) -> bool
    ensures { result ≡ descriptors_fit t.now }
{
    let descriptors = first_descriptor(t, count(t, layout::ENTRY_COUNT_AT));
    (0..limit::DESCRIPTORS).all(|d| descriptor_block_fits(t, descriptors, d))
}

// The words that say whose entry k is.
fn principal(t: &[u16], k: usize) -> &[u16]
    requires { k ≤ most_entries }
    ensures { result.now ≡ principal_words t.now k }
{
    part(t, entry_at(k), layout::PRINCIPAL_SIZE)
}

// No entry before entry k has its principal.
fn principal_is_new(t: &[u16], k: usize) -> bool
    requires { k ≤ most_entries }
    ensures { result ≡ principal_is_new t.now k }
{
    (0..k).all(|j| principal(t, j) != principal(t, k))
}

// A sum of words, each as often as its place says: equal words have equal sums, and words in another order mostly have others.
fn weighed(words: &[u16]) -> u32
    requires { length words.now ≤ principal_size }
    ensures { result ≡ weighed words.now }
{
    words
        .iter()
        .enumerate()
        .map(|(i, w)| u32::from(*w) * (i as u32 + 1))
        .sum()
}

// None of the sums is this one. The fold has no exit, so that it takes many at a time.
fn is_new_sum(sums: &[u32], sum: u32) -> bool
    ensures { result ≡ list_all (is_other_sum sum) sums.now }
{
    sums.iter().fold(true, |new, s| new & (*s != sum))
}

// The principal of the entry behind those of the sums is new: principals are compared only where sums are equal.
fn is_new_by_sum(t: &[u16], sums: &[u32], sum: u32) -> bool
    requires short { length sums.now ≤ most_entries }
    requires summed { Summed t.now sums.now }
    requires sum_value { sum ≡ principal_sum t.now (length sums.now) }
    ensures { result ≡ principal_is_new t.now (length sums.now) }
{
    is_new_sum(sums, sum) || principal_is_new(t, sums.len())
}

fn principals_differ(t: &[u16], entries: usize) -> bool
    requires { entries ≤ most_entries }
    ensures { result ≡ up_to (principal_is_new t.now) entries }
{
    let mut sums = [0u32; limit::ENTRIES];
    for k in 0..entries {
        let sum = weighed(principal(t, k));
        if !is_new_by_sum(t, &sums[..k], sum) {
            return false;
        }
        sums[k] = sum;
    }
    true
}

// A variable in the context at a place has one at the same key of its entry.
fn bound_at(t: &[u16], entry: usize, at: usize, key: usize) -> bool
    requires { (entry ≤ reach) × (at ≤ reach) × (key ≤ namespace_at) }
    ensures { result ≡ bound_at t.now entry at key }
{
    word(t, at + key) != layout::VARIABLE || word(t, entry + key) == layout::VARIABLE
}

fn bound_by(t: &[u16], entry: usize, at: usize) -> bool
    requires { (entry ≤ reach) × (at ≤ reach) }
    ensures { result ≡ bound_by t.now entry at }
{
    bound_at(t, entry, at, layout::UID_AT)
        && bound_at(t, entry, at, layout::GID_AT)
        && bound_at(t, entry, at, layout::NAMESPACE_AT)
}

// The n descriptors of an entry from the first on have their variables bound.
fn descriptors_bound(t: &[u16], entry: usize, first: usize, n: usize) -> bool
    requires { (entry ≤ reach) × (descriptor_at (first + n) ≤ reach) }
    ensures { result ≡ descriptors_bound t.now entry first n }
{
    (0..n).all(|i| bound_by(t, entry, descriptor_at(first + i)))
}

fn variables_bound(t: &[u16], entries: usize) -> bool
    requires { entries ≤ most_entries }
    ensures { result ≡ up_to (entry_bound t.now) entries }
{
    let mut first = 0;
    for k in 0..entries {
        let n = descriptors_of(t, k);
        if !descriptors_bound(t, entry_at(k), first, n) {
            return false;
        }
        first += n;
    }
    true
}

// The blocks before the descriptors.
fn blocks_fit(t: &[u16]) -> bool
    ensures { result ≡ blocks_fit t.now }
{
    let objects = word(t, layout::OBJECT_COUNT_AT);
    let object_domains = word(t, layout::OBJECT_DOMAIN_COUNT_AT);
    let functions = word(t, layout::FUNCTION_COUNT_AT);
    let subject_domains = word(t, layout::SUBJECT_DOMAIN_COUNT_AT);
    is_zero(t, layout::HEAD_SPARE_AT, layout::HEAD_SPARE_SIZE)
        && members_fit(t, layout::OBJECTS_AT, objects, object_domains)
        && members_fit(t, layout::FUNCTIONS_AT, functions, subject_domains)
        && entries_fit(t)
}

// The descriptors, what stands behind them, and what entries say of each other and of their descriptors.
fn rest_fits(t: &[u16], entries: usize) -> bool
    requires { (entries ≡ entry_count t.now) × (entries ≤ most_entries) }
    ensures { result ≡ rest_fits t.now }
{
    descriptors_fit(t)
        && is_zero(t, layout::SPARE_AT, layout::SPARE_SIZE)
        && principals_differ(t, entries)
        && variables_bound(t, entries)
}

// A table that is long enough is well formed.
fn words_fit(t: &[u16]) -> bool
    requires { table_words ≤ length t.now }
    ensures { result ≡ well_formed t.now }
{
    word(t, layout::MARK_AT) == layout::MARK
        && counts_fit(t)
        && blocks_fit(t)
        && rest_fits(t, count(t, layout::ENTRY_COUNT_AT))
}

// The table is well formed. Words past its end are cut off: the compiler then knows how many there are, and tests no place against that.
pub fn well_formed(t: &[u16]) -> bool
    ensures { result ≡ well_formed t.now }
{
    t.len() >= limit::TABLE_WORDS && words_fit(&t[..limit::TABLE_WORDS])
}
