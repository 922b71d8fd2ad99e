// 10 and 11 over the list of a text's fields, entry by entry. A line that is none is 0, as the paper's rules have it.
#![tactic(auto)]

ghost use Rattle.std.specs.Prelude.{◌≡◌, ◌+◌, ◌*◌, ◌/◌, ◌<◌, ◌≤◌, eqb, length};
ghost use Rattle.paper.specs.Common.{any_of, same, up_to};
ghost use Rattle.paper.specs.Limits.{most_entries};
ghost use Rattle.paper.specs.Listing.{context_places};
ghost use Rattle.paper.specs.Entries.{value_at, entries_of};
ghost use Rattle.paper.specs.Rules.{first_with, in_object_contexts, is_unbound_key, is_unbound, unbound_variable};
ghost use Rattle.paper.specs.Rules.{same_sort, same_principal, twin_principal};
ghost use Rattle.file_fields.specs.Fields.{field_of};
ghost use Rattle.file_fields.specs.Stretches.{fields_of, stretch_of};
ghost use Rattle.file_index.specs.Buckets.{hashes};
ghost use Rattle.file_entries.specs.Keys.{key_in};
ghost use Rattle.file_entries.specs.Weights.{four_at, with_eight, eights, weight_of};
ghost use Rattle.file_entries.specs.Principals.{sorts, weight_at, sort_at, principal_hash, is_other_hash, AllHashed};

use file_fields::file::{FieldAt, File};
use file_fields::stretch::Stretch;
use paper::limit;
use text_keys::rows;

const SORTS: usize = 4;

// Thirty-two bits of a hash are kept.
const HASHES: usize = 4294967296;

// What sets four bytes apart from the four behind them.
const APART: usize = 40503;

// What an entry says at a place: an omitted pattern is `[all]`, and anything else `all`.
fn value_at(entry: Stretch, place: usize) -> &[u8]
    ensures { result.now ≡ value_at place (stretch_of entry.entry) }
{
    if file_fields::is_call_context(place) {
        return entry.value_at(place, b"[all]", b"[]");
    }
    entry.value_at(place, b"all", b"[]")
}

// The field stands at this key of an object context.
fn is_object_key(key: usize, field: FieldAt) -> bool
    requires { key < context_places }
    ensures { result ≡ any_of (eqb field.place) (in_object_contexts (key_in key)) }
{
    let place = field.place();
    (place == rows::READ_CONTEXT + key) | (place == rows::WRITE_CONTEXT + key)
}

// The field of an entry has a variable at a key of an object context, and it is not the one of the entry's same key.
fn is_unbound_key(entry: Stretch, key: usize, field: FieldAt) -> bool
    requires { key < context_places }
    ensures { result ≡ is_unbound_key (key_in key) (stretch_of entry.entry) (field_of entry.entry.file.text.now field) }
{
    if !is_object_key(key, field) {
        return false;
    }
    let v = entry.file.value(field);
    if !text_scalars::is_variable(v) {
        return false;
    }
    !text_bytes::same(v, value_at(entry, rows::EXECUTION_CONTEXT + key))
}

// Most fields stand at no key of an object context: they are told by their place alone.
fn is_unbound(entry: Stretch, field: FieldAt) -> bool
    ensures { result ≡ is_unbound (stretch_of entry.entry) (field_of entry.entry.file.text.now field) }
{
    if field.place() < rows::READ_CONTEXT {
        return false;
    }
    is_unbound_key(entry, rows::UID, field)
        | is_unbound_key(entry, rows::GID, field)
        | is_unbound_key(entry, rows::NAMESPACE, field)
}

// 10 in one entry.
fn entry_unbound_line(entry: Stretch) -> usize
    ensures { result ≡ first_with (is_unbound (stretch_of entry.entry)) (stretch_of entry.entry) }
{
    for field in entry.fields() {
        if is_unbound(entry, *field) {
            return field.line();
        }
    }
    text_lines::NO_LINE
}

// 10 over the whole file: the smallest line, or none.
pub fn unbound_line(file: File) -> usize
    ensures { result ≡ unbound_variable (fields_of file.entry) }
{
    let mut line = text_lines::NO_LINE;
    for entry in file.entries() {
        line = file_fields::earlier(line, entry_unbound_line(entry));
    }
    line
}

// Four bytes as one number, the first of them lowest: the compiler takes them in one go.
fn four_at(v: &[u8], i: usize) -> usize
    requires { i + 4 ≤ length v.now }
    ensures { (result ≡ four_at v.now i) × (result < hashes) }
{
    u32::from_le_bytes([v[i], v[i + 1], v[i + 2], v[i + 3]]) as usize
}

// The weight h, gone on over eight bytes.
fn with_eight(h: usize, v: &[u8], i: usize) -> usize
    requires { (h < hashes) × (i + 8 ≤ length v.now) }
    ensures { (result ≡ with_eight h v.now i) × (result < hashes) }
{
    let low = four_at(v, i);
    let high = four_at(v, i + 4);
    (h * file_index::MULTIPLIER + low * APART + high) % HASHES
}

// The weight of all bytes but the last, less than eight.
fn eights(v: &[u8]) -> usize
    ensures { (result ≡ eights v.now (length v.now / 8)) × (result < hashes) }
{
    let mut h: usize = 0;
    for k in 0..v.len() / 8 {
        h = with_eight(h, v, 8 * k);
    }
    h
}

// A number that equal values have in common. The last eight bytes are taken whether or not some of them were.
fn weight(v: &[u8]) -> usize
    ensures { (result ≡ weight_of v.now) × (result < hashes) }
{
    if v.len() < 8 {
        return file_index::hash(file_index::MULTIPLIER, v);
    }
    let last = v.len() - 8;
    with_eight(eights(v), v, last)
}

fn weight_at(entry: Stretch, place: usize) -> usize
    ensures { (result ≡ weight_at place (stretch_of entry.entry)) × (result < hashes) }
{
    weight(value_at(entry, place))
}

fn sort_at(entry: Stretch, place: usize) -> usize
    ensures { (result ≡ sort_at place (stretch_of entry.entry)) × (result < sorts) }
{
    file_fields::values::sort_of(value_at(entry, place)) as usize
}

// A number that equal principals have in common.
fn principal_hash(entry: Stretch) -> u32
    ensures { result ≡ principal_hash (stretch_of entry.entry) }
{
    let subject = weight_at(entry, rows::SUBJECT);
    let pattern = weight_at(entry, rows::EXECUTION_CALL_CONTEXT);
    let uid = sort_at(entry, rows::EXECUTION_UID);
    let gid = sort_at(entry, rows::EXECUTION_GID);
    let namespace = sort_at(entry, rows::EXECUTION_NAMESPACE);
    let hash = SORTS * (SORTS * (SORTS * (subject + pattern) + uid) + gid) + namespace;
    (hash % HASHES) as u32
}

fn same_value(a: Stretch, b: Stretch, place: usize) -> bool
    ensures { result ≡ same (value_at place (stretch_of a.entry)) (value_at place (stretch_of b.entry)) }
{
    text_bytes::same(value_at(a, place), value_at(b, place))
}

fn same_sort(a: Stretch, b: Stretch, place: usize) -> bool
    ensures { result ≡ same_sort (value_at place (stretch_of a.entry)) (value_at place (stretch_of b.entry)) }
{
    sort_at(a, place) == sort_at(b, place)
}

// Two entries have the same principal.
fn same_principal(a: Stretch, b: Stretch) -> bool
    ensures { result ≡ same_principal (stretch_of a.entry) (stretch_of b.entry) }
{
    let subject = same_value(a, b, rows::SUBJECT);
    let pattern = same_value(a, b, rows::EXECUTION_CALL_CONTEXT);
    let uid = same_sort(a, b, rows::EXECUTION_UID);
    let gid = same_sort(a, b, rows::EXECUTION_GID);
    let namespace = same_sort(a, b, rows::EXECUTION_NAMESPACE);
    subject & pattern & uid & gid & namespace
}

// Where an entry begins in the list of fields, and where it ends.
#[derive(Clone, Copy)]
struct Bounds {
    from: usize,
    to: usize,
}

// The entries that were passed. Their hashes stand apart from their bounds, since many of them are compared at a time.
#[derive(Clone, Copy)]
struct Passed<'a> {
    file: File<'a>,
    bounds: &'a [Bounds],
    hashes: &'a [u32],
    count: usize,
    ghost hashed: { AllHashed file.text.now file.fields.now bounds.now hashes.now count },
}

impl<'a> Passed<'a> {
    ghost use Rattle.file_entries.specs.Passed.{passed_entry, passed_before};

    fn entry(self, k: usize) -> Stretch<'a>
        requires { k < self.count }
        ensures { stretch_of result ≡ passed_entry self.entry k }
    {
        let Bounds { from, to } = self.bounds[k];
        Stretch {
            file: self.file,
            from,
            to,
        }
    }

    // Entries a and b have the same principal. Hashes are compared first since they nearly always tell.
    fn are_twins(self, a: usize, b: usize) -> bool
        requires a_passed { a < self.count }
        requires b_passed { b < self.count }
        ensures { result ≡ same_principal (passed_entry self.entry a) (passed_entry self.entry b) }
    {
        if self.hashes[a] != self.hashes[b] {
            return false;
        }
        same_principal(self.entry(a), self.entry(b))
    }

    // None of the hashes below k is that of entry k. The loop has no exit, so that it takes many at a time.
    fn is_new_hash(self, k: usize) -> bool
        requires { k < self.count }
        ensures { result ≡ up_to (is_other_hash self.entry.hashes.now k) k }
    {
        let hash = self.hashes[k];
        let mut new = true;
        for other in &self.hashes[..k] {
            new &= *other != hash;
        }
        new
    }

    // Entry k has the principal of one before it.
    fn has_twin(self, k: usize) -> bool
        requires { k < self.count }
        ensures { result ≡ any_of (same_principal (passed_entry self.entry k)) (passed_before self.entry k) }
    {
        if self.is_new_hash(k) {
            return false;
        }
        for j in (0..k).rev() {
            if self.are_twins(k, j) {
                return true;
            }
        }
        false
    }
}

// 11 over the whole file: the later entry's line, or none.
pub fn twin_line(file: File) -> usize
    requires { length (entries_of (fields_of file)) ≤ most_entries }
    ensures { result ≡ twin_principal (fields_of file.entry) }
{
    let mut bounds = [Bounds { from: 0, to: 0 }; limit::ENTRIES];
    let mut hashes = [0u32; limit::ENTRIES];
    for (k, entry) in file.entries().enumerate() {
        bounds[k] = Bounds {
            from: entry.from,
            to: entry.to,
        };
        hashes[k] = principal_hash(entry);
        let passed = Passed {
            file,
            bounds: &bounds,
            hashes: &hashes,
            count: k + 1,
        };
        if passed.has_twin(k) {
            return entry.line();
        }
    }
    text_lines::NO_LINE
}
