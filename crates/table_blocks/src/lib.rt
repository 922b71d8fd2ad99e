// Tests of one block of a table, for any words: members, a context, a grant, an entry, a descriptor.
// A block is the table and a place, as in the paper's definitions.
// Slices from the place on were tried: the test of a full table took 9 in 100 longer.
#![tactic(auto)]

ghost use Rattle.std.specs.Prelude.{◌≡◌, ◌+◌, ◌≤◌};
ghost use Rattle.paper.specs.Common.{up_to};
ghost use Rattle.paper.specs.Limits.{most_members, most_elements};
ghost use Rattle.paper.specs.Table.{word_bits, set_size, entry_size, descriptor_size};
ghost use Rattle.paper.specs.Table.{zeros, members_fit, element_listed, context_fits, grant_fits, entry_fits};
ghost use Rattle.paper.specs.Table.{descriptor_fits};
ghost use Rattle.table.specs.Reach.{reach};
ghost use Rattle.table_blocks.specs.Parts.{element_fits, member_fits, used_bits, set_word_fits};

use paper::{element, limit};
use table::{count, layout, part, word};

pub fn is_zero(t: &[u16], at: usize, n: usize) -> bool
    ensures { result ≡ zeros t.now at n }
{
    part(t, at, n).iter().all(|w| *w == 0)
}

fn member_fits(t: &[u16], at: usize, members: u16, domains: u16, i: usize) -> bool
    requires { (at ≤ reach) × (i ≤ most_members) }
    ensures { result ≡ member_fits t.now at members domains i }
{
    let w = word(t, at + i);
    if i < usize::from(members) {
        w < domains
    } else {
        w == 0
    }
}

pub fn members_fit(t: &[u16], at: usize, members: u16, domains: u16) -> bool
    requires { at ≤ reach }
    ensures { result ≡ members_fit t.now at members domains }
{
    (0..limit::MEMBERS).all(|i| member_fits(t, at, members, domains, i))
}

// An element is `all`, or a function or a subject domain below their count.
fn element_listed(t: &[u16], w: u16) -> bool
    ensures { result ≡ element_listed t.now w }
{
    if w < element::FIRST_DOMAIN {
        w <= word(t, layout::FUNCTION_COUNT_AT)
    } else {
        w - element::FIRST_DOMAIN < word(t, layout::SUBJECT_DOMAIN_COUNT_AT)
    }
}

fn element_fits(t: &[u16], at: usize, i: usize) -> bool
    requires { (at ≤ reach) × (i ≤ most_elements) }
    ensures { result ≡ element_fits t.now at i }
{
    let w = word(t, at + layout::ELEMENTS_AT + i);
    if i < count(t, at) {
        element_listed(t, w)
    } else {
        w == 0
    }
}

fn elements_fit(t: &[u16], at: usize) -> bool
    requires { at ≤ reach }
    ensures { result ≡ up_to (element_fits t.now at) most_elements }
{
    (0..limit::ELEMENTS).all(|i| element_fits(t, at, i))
}

fn context_fits(t: &[u16], at: usize) -> bool
    requires { at ≤ reach }
    ensures { result ≡ context_fits t.now at }
{
    let elements = count(t, at);
    1 <= elements
        && elements <= limit::ELEMENTS
        && word(t, at + layout::UID_AT) <= layout::USER
        && word(t, at + layout::GID_AT) <= layout::VARIABLE
        && word(t, at + layout::NAMESPACE_AT) <= layout::VARIABLE
        && elements_fit(t, at)
}

// How many bits of word j of a set are used.
fn used_bits(every: u16, domains: usize, j: usize) -> usize
    requires { j ≤ set_size }
    ensures { (result ≡ used_bits every domains j) × (result ≤ word_bits) }
{
    if every == layout::EVERY {
        return 0;
    }
    domains
        .saturating_sub(layout::WORD_BITS * j)
        .min(layout::WORD_BITS)
}

fn set_word_fits(t: &[u16], at: usize, domains: usize, j: usize) -> bool
    requires { (at ≤ reach) × (j ≤ set_size) }
    ensures { result ≡ set_word_fits t.now at domains j }
{
    let used = used_bits(word(t, at), domains, j);
    let w = u32::from(word(t, at + layout::SET_AT + j));
    w >> used == 0
}

fn grant_fits(t: &[u16], at: usize, domains: usize) -> bool
    requires { at ≤ reach }
    ensures { result ≡ grant_fits t.now at domains }
{
    word(t, at) <= layout::EVERY && (0..layout::SET_SIZE).all(|j| set_word_fits(t, at, domains, j))
}

pub fn entry_fits(t: &[u16], at: usize) -> bool
    requires { at + entry_size ≤ reach }
    ensures { result ≡ entry_fits t.now at }
{
    let domains = count(t, layout::SUBJECT_DOMAIN_COUNT_AT);
    context_fits(t, at)
        && count(t, at + layout::SUBJECT_AT) < domains
        && word(t, at + layout::ENTRY_SPARE_AT) == 0
        && grant_fits(t, at + layout::CALLS_AT, domains)
        && grant_fits(t, at + layout::RETURNS_AT, domains)
        && is_zero(t, at + layout::ENTRY_TAIL_AT, layout::ENTRY_TAIL_SIZE)
}

pub fn descriptor_fits(t: &[u16], at: usize) -> bool
    requires { at + descriptor_size ≤ reach }
    ensures { result ≡ descriptor_fits t.now at }
{
    let domains = count(t, layout::OBJECT_DOMAIN_COUNT_AT);
    context_fits(t, at)
        && grant_fits(t, at + layout::GRANT_AT, domains)
        && is_zero(
            t,
            at + layout::DESCRIPTOR_TAIL_AT,
            layout::DESCRIPTOR_TAIL_SIZE,
        )
}
