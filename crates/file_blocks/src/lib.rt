// The words of an entry and of a descriptor, written into the part of the table that holds them. Every part is zero before.
#![tactic(auto)]

ghost use Rattle.std.specs.Prelude.{◌≡◌, false, [], ◌-◌, ◌<◌, ◌≤◌, length, replicate};
ghost use Rattle.paper.specs.Limits.{most_domains, most_elements, most_descriptors};
ghost use Rattle.paper.specs.Lists.{elements};
ghost use Rattle.paper.specs.Listing.{object_name, subject_name, execution_context, can_read, can_write};
ghost use Rattle.paper.specs.Listing.{call_context_in, object_context_in};
ghost use Rattle.paper.specs.Entries.{value_at};
ghost use Rattle.paper.specs.Rules.{descriptors_of, repeats, domains_at};
ghost use Rattle.paper.specs.Policy.{descriptor_of, entry_of};
ghost use Rattle.paper.specs.Table.{context_size, grant_size, subject_at, entry_size, descriptor_size, descriptor_words, entry_words};
ghost use Rattle.file_fields.specs.Fields.{next_at};
ghost use Rattle.file_fields.specs.Places.{IsAccess, IsContext};
ghost use Rattle.file_fields.specs.Stretches.{fields_of, stretch_of};
ghost use Rattle.file_index.specs.Buckets.{numbers_in};
ghost use Rattle.file_index.specs.Maps.{Mapped};
ghost use Rattle.file_words.specs.Files.{WordedFile};
ghost use Rattle.file_blocks.specs.Written.{put_from, pattern_in, context_of_words, context_in, counts_by, with_word, with_words, every_in, grant_in};

use file_fields::stretch::Stretch;
use file_fields::values;
use file_index::names::Names;
use file_words::Words;
use paper::Operation;
use table::layout;
use text_keys::rows;
use text_lists::is_all;

// The words go over those at the front. They are few: the loop calls nothing, so that whoever links this needs no `memmove`.
fn copy_words(s: &[u16], out: &mut [u16])
    requires { length s.now ≤ length out.old }
    ensures { out.new ≡ put_from 0 s.now out.old }
{
    for i in 0..s.len() {
        out[i] = s[i];
    }
}

// The values of a context's keys besides its pattern.
#[derive(Clone, Copy)]
struct Ids<'a> {
    uid: &'a [u8],
    gid: &'a [u8],
    namespace: &'a [u8],
}

// The words of a context: the pattern is that of field i, and one `all` where it is omitted and there is no such field.
fn write_keys(words: Words, i: usize, to: usize, ids: Ids, out: &mut [u16])
    requires to_in_bounds { to < length words.starts.now }
    requires few { length (pattern_in words.words.now words.starts.now i to) ≤ most_elements }
    requires out_value { out.old ≡ replicate context_size 0 }
    ensures { out.new ≡ context_of_words (pattern_in words.entry.words.now words.entry.starts.now i to)
        ids.entry.uid.now ids.entry.gid.now ids.entry.namespace.now }
{
    out[layout::UID_AT] = values::sort_of(ids.uid);
    out[layout::GID_AT] = values::sort_of(ids.gid);
    out[layout::NAMESPACE_AT] = values::sort_of(ids.namespace);
    if to <= i {
        out[0] = 1;
        return;
    }
    let s = words.of(i);
    out[0] = s.len() as u16;
    copy_words(s, &mut out[layout::ELEMENTS_AT..]);
}

// The context at a place, among the fields of a stretch.
fn write_found(part: Stretch, words: Words, place: usize, out: &mut [u16])
    requires to_in_bounds { part.to < length words.starts.now }
    requires context { IsContext place }
    requires few { length (pattern_in words.words.now words.starts.now (next_at part.file.fields.now (call_context_in place) part.from (part.to - part.from)) part.to) ≤ most_elements }
    requires out_value { out.old ≡ replicate context_size 0 }
    ensures { out.new ≡ context_in part.entry.file.text.now part.entry.file.fields.now words.entry.words.now words.entry.starts.now place part.entry.from part.entry.to }
{
    let ids = Ids {
        uid: part.value_at(place + rows::UID, b"all", b"[]"),
        gid: part.value_at(place + rows::GID, b"all", b"[]"),
        namespace: part.value_at(place + rows::NAMESPACE, b"all", b"[]"),
    };
    let i = part.next_at(place + rows::CALL_CONTEXT);
    write_keys(words, i, part.to, ids, out);
}

// The context at a place; most contexts have no key, so one is looked for first.
fn write_context(part: Stretch, words: Words, place: usize, out: &mut [u16])
    requires to_in_bounds { part.to < length words.starts.now }
    requires context { IsContext place }
    requires few { length (pattern_in words.words.now words.starts.now (next_at part.file.fields.now (call_context_in place) part.from (part.to - part.from)) part.to) ≤ most_elements }
    requires out_value { out.old ≡ replicate context_size 0 }
    ensures { out.new ≡ context_in part.entry.file.text.now part.entry.file.fields.now words.entry.words.now words.entry.starts.now place part.entry.from part.entry.to }
{
    match part.keys_of(place) {
        Some(keys) => write_found(keys, words, place, out),
        None => {
            out[0] = 1;
        }
    }
}

// Puts the domain with this number into a set, if there is one among n.
fn put_domain(d: usize, n: usize, domains: &mut [u16])
    ensures { domains.new ≡ with_word n domains.old d }
{
    if d < n {
        Operation::insert(domains, d);
    }
}

// Puts the domain of every word into a set, where there is one among n.
fn put_domains(s: &[u16], n: usize, domains: &mut [u16])
    ensures { domains.new ≡ with_words n domains.old s.now }
{
    for word in s {
        put_domain(*word as usize, n, domains);
    }
}

// Field i of a stretch grants every domain: it is `all`, or omitted, and there is no such field.
fn is_every(part: Stretch, i: usize) -> bool
    ensures { result ≡ every_in part.entry.file.text.now part.entry.file.fields.now i part.entry.to }
{
    if part.to <= i {
        return true;
    }
    is_all(part.file.value(part.file.fields[i]))
}

// The grant at a place, among the fields of a stretch, by the words of its domains, of which the map has so many.
fn write_grant(part: Stretch, words: Words, place: usize, domains: usize, out: &mut [u16])
    requires to_in_bounds { part.to < length words.starts.now }
    requires out_value { out.old ≡ replicate grant_size 0 }
    ensures { out.new ≡ grant_in part.entry.file.text.now part.entry.file.fields.now words.entry.words.now words.entry.starts.now place part.entry.from part.entry.to domains }
{
    let i = part.next_at(place);
    if is_every(part, i) {
        out[0] = layout::EVERY;
        return;
    }
    put_domains(words.of(i), domains, &mut out[layout::SET_AT..]);
}

// Of an entry, its subject's number and how many descriptors it has.
fn write_counts(entry: Stretch, subjects: Names, out: &mut [u16])
    requires few_subjects { subjects.count ≤ most_domains }
    requires few_descriptors { (descriptors_of can_read (stretch_of entry) ≤ most_descriptors) × (descriptors_of can_write (stretch_of entry) ≤ most_descriptors) }
    requires out_len { length out.old ≡ entry_size }
    ensures { out.new ≡ put_from subject_at (counts_by (numbers_in entry.entry.file.text.now subjects.entry.index.now subjects.entry.count) (stretch_of entry.entry)) out.old }
{
    let subject = entry.value_at(rows::SUBJECT, b"all", b"[]");
    out[layout::SUBJECT_AT] = subjects.number_in(entry.file.text, subject) as u16;
    out[layout::READS_AT] = entry.descriptors_of(rows::CAN_READ) as u16;
    out[layout::WRITES_AT] = entry.descriptors_of(rows::CAN_WRITE) as u16;
}

// The words of an entry.
pub fn write_entry(entry: Stretch, words: Words, subjects: Names, out: &mut [u16])
    requires worded { WordedFile entry.file words }
    requires mapped { Mapped entry.file.text.now subjects.index.now subjects.count most_domains (domains_at subject_name (fields_of entry.file)) }
    requires distinct { repeats [] (domains_at subject_name (fields_of entry.file)) ≡ false }
    requires few_elements { length (elements (value_at (call_context_in execution_context) (stretch_of entry))) ≤ most_elements }
    requires few_descriptors { (descriptors_of can_read (stretch_of entry) ≤ most_descriptors) × (descriptors_of can_write (stretch_of entry) ≤ most_descriptors) }
    requires out_value { out.old ≡ replicate entry_size 0 }
    ensures { out.new ≡ entry_words (entry_of (fields_of entry.entry.file) (stretch_of entry.entry)) }
{
    let domains = subjects.count;
    write_context(
        entry,
        words,
        rows::EXECUTION_CONTEXT,
        &mut out[..layout::SUBJECT_AT],
    );
    write_counts(entry, subjects, out);
    write_grant(
        entry,
        words,
        rows::CAN_CALL,
        domains,
        &mut out[layout::CALLS_AT..layout::RETURNS_AT],
    );
    write_grant(
        entry,
        words,
        rows::CAN_RETURN,
        domains,
        &mut out[layout::RETURNS_AT..layout::ENTRY_TAIL_AT],
    );
}

// The words of a descriptor of `can_read` or `can_write`, by the item's fields; none of them is the descriptor of an `all`.
pub fn write_descriptor(item: Stretch, words: Words, access: usize, objects: usize, out: &mut [u16])
    requires access { IsAccess access }
    requires worded { WordedFile item.file words }
    requires objects_value { (objects ≡ length (domains_at object_name (fields_of item.file))) × (objects ≤ most_domains) }
    requires distinct { repeats [] (domains_at object_name (fields_of item.file)) ≡ false }
    requires few_elements { length (elements (value_at (call_context_in (object_context_in access)) (stretch_of item))) ≤ most_elements }
    requires out_value { out.old ≡ replicate descriptor_size 0 }
    ensures { out.new ≡ descriptor_words (descriptor_of (fields_of item.entry.file) access (stretch_of item.entry)) }
{
    write_context(
        item,
        words,
        access + rows::ITEM_CONTEXT,
        &mut out[..layout::GRANT_AT],
    );
    write_grant(
        item,
        words,
        access + rows::ITEM_OBJECTS,
        objects,
        &mut out[layout::GRANT_AT..layout::DESCRIPTOR_TAIL_AT],
    );
}
