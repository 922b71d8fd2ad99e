// The words of a whole file, each block written through the lent part of the table that holds it.
#![tactic(auto)]

ghost use Rattle.std.specs.Prelude.{◌≡◌, true, [], ◌∷◌, ◌++◌, ◌*◌, ◌≤◌, length, take, drop, replicate};
ghost use Rattle.paper.specs.Common.{all_of};
ghost use Rattle.paper.specs.Limits.{most_domains, most_members, most_entries, table_words};
ghost use Rattle.paper.specs.Text.{no_line};
ghost use Rattle.paper.specs.Listing.{object_members, subject_members};
ghost use Rattle.paper.specs.Entries.{fields_at, entries_of, items_of};
ghost use Rattle.paper.specs.Rules.{descriptors_of, descriptors_in, over_limit};
ghost use Rattle.paper.specs.Policy.{member_domains, policy_of};
ghost use Rattle.paper.specs.Table.{mark, head_size, entry_size, entries_size, descriptor_size, descriptors_size, padded, words_of};
ghost use Rattle.laws_page.specs.Right.{is_numbered};
ghost use Rattle.laws_file.specs.Accepted.{total};
ghost use Rattle.file_fields.specs.Listed.{most_fields};
ghost use Rattle.file_fields.specs.Places.{IsAccess};
ghost use Rattle.file_fields.specs.Stretches.{fields_of, stretch_of};
ghost use Rattle.file_words.specs.Files.{WordedFile};
ghost use Rattle.file_table.specs.Blocks.{entry_blocks, item_blocks, access_blocks, own_blocks, descriptor_blocks, maps_size, map_blocks, privileges_size, privilege_blocks, Filled};
ghost use Rattle.file_table.specs.Ready.{ReadyFile, OfObjects, OfSubjects, OfFunctions, Bounded};

use file_blocks::{write_descriptor, write_entry};
use file_fields::file::File;
use file_fields::stretch::Stretch;
use file_fields::values::element_count;
use file_index::names::Names;
use file_words::Words;
use paper::limit;
use table::layout;
use text_keys::rows;

// So many words hold the members of both maps, the entries, and the entries with their descriptors.
const MAPS_SIZE: usize = layout::ENTRIES_AT - layout::OBJECTS_AT;

const ENTRIES_SIZE: usize = layout::DESCRIPTORS_AT - layout::ENTRIES_AT;

const PRIVILEGES_SIZE: usize = limit::TABLE_WORDS - layout::ENTRIES_AT;

// The domain of each member of a map, by the place of its lists, among the fields of the maps: how many members there are.
fn write_members(maps: Stretch, place: usize, out: &mut [u16]) -> usize
    requires few_fields { maps.to ≤ most_fields }
    requires few_members { length (member_domains 0 (fields_at place (stretch_of maps))) ≤ most_members }
    requires out_value { out.old ≡ replicate most_members 0 }
    ensures value { result ≡ length (member_domains 0 (fields_at place (stretch_of maps.entry))) }
    ensures out_after { out.new ≡ padded most_members (member_domains 0 (fields_at place (stretch_of maps.entry))) }
{
    let mut d: u16 = 0;
    let mut at: usize = 0;
    for list in maps.each(place) {
        let end = at + element_count(list.file.value(list.file.fields[list.from]));
        out[at..end].fill(d);
        at = end;
        d += 1;
    }
    at
}

// The domain of each object, then of each function: how many objects there are.
fn write_maps(file: File, out: &mut [u16]) -> usize
    requires few_fields { length file.fields.now ≤ most_fields }
    requires few_objects { length (member_domains 0 (fields_at object_members (fields_of file))) ≤ most_members }
    requires few_functions { length (member_domains 0 (fields_at subject_members (fields_of file))) ≤ most_members }
    requires out_len { (length out.old ≡ maps_size) × (out.old ≡ replicate (length out.old) 0) }
    ensures value { result ≡ length (member_domains 0 (fields_at object_members (fields_of file.entry))) }
    ensures out_after { out.new ≡ map_blocks (fields_of file.entry) }
{
    let maps = file.maps();
    let objects = write_members(maps, rows::OBJECT_MEMBERS, &mut out[0..limit::MEMBERS]);
    write_members(
        maps,
        rows::SUBJECT_MEMBERS,
        &mut out[limit::MEMBERS..MAPS_SIZE],
    );
    objects
}

// How many object domains, subject domains, objects, functions and entries there are.
#[derive(Clone, Copy)]
struct Counts {
    object_domains: usize,
    subject_domains: usize,
    objects: usize,
    functions: usize,
    entries: usize,
}

// The mark, then the counts.
fn write_head(counts: Counts, out: &mut [u16])
    requires few_domains { (counts.object_domains ≤ most_domains) × (counts.subject_domains ≤ most_domains) }
    requires few_others { (counts.objects ≤ most_members) × (counts.functions ≤ most_members) × (counts.entries ≤ most_entries) }
    requires out_value { out.old ≡ replicate head_size 0 }
    ensures { out.new ≡ padded head_size (mark ∷ counts.object_domains ∷ counts.subject_domains ∷ counts.objects ∷ counts.functions ∷ counts.entries ∷ []) }
{
    out[layout::MARK_AT] = layout::MARK;
    out[layout::OBJECT_DOMAIN_COUNT_AT] = counts.object_domains as u16;
    out[layout::SUBJECT_DOMAIN_COUNT_AT] = counts.subject_domains as u16;
    out[layout::OBJECT_COUNT_AT] = counts.objects as u16;
    out[layout::FUNCTION_COUNT_AT] = counts.functions as u16;
    out[layout::ENTRY_COUNT_AT] = counts.entries as u16;
}

// The words of each entry: how many entries there are.
fn write_entries(file: File, words: Words, subjects: Names, out: &mut [u16]) -> usize
    requires ready { ReadyFile file words × OfSubjects file.text.now subjects.index.now subjects.count (fields_of file) }
    requires bounded { Bounded (fields_of file) }
    requires out_value { out.old ≡ replicate entries_size 0 }
    ensures { Filled entry_size (length (entries_of (fields_of file.entry)))
        (entry_blocks (fields_of file.entry) (entries_of (fields_of file.entry))) out.old out.new result }
{
    let mut k: usize = 0;
    for entry in file.entries() {
        let at = layout::ENTRY_SIZE * k;
        let end = at + layout::ENTRY_SIZE;
        write_entry(entry, words, subjects, &mut out[at..end]);
        k += 1;
    }
    k
}

// The descriptors of an entry's items, one behind the other: how many there are.
fn write_items(
    entry: Stretch,
    words: Words,
    access: usize,
    objects: usize,
    out: &mut [u16],
) -> usize
    requires ready { ReadyFile entry.file words × OfObjects objects (fields_of entry.file) }
    requires access { IsAccess access }
    requires out_value { out.old ≡ replicate (length out.old) 0 }
    requires room { descriptor_size * length (items_of access (stretch_of entry)) ≤ length out.old }
    ensures { Filled descriptor_size (length (items_of access (stretch_of entry.entry)))
        (item_blocks (fields_of entry.entry.file) access (items_of access (stretch_of entry.entry))) out.old out.new result }
{
    let mut d: usize = 0;
    for item in entry.each(access + rows::ITEM_OBJECTS) {
        let at = layout::DESCRIPTOR_SIZE * d;
        let end = at + layout::DESCRIPTOR_SIZE;
        write_descriptor(item, words, access, objects, &mut out[at..end]);
        d += 1;
    }
    d
}

// The descriptors of `can_read` or `can_write`: `all` is one with nothing written in it.
fn write_access(
    entry: Stretch,
    words: Words,
    access: usize,
    objects: usize,
    out: &mut [u16],
) -> usize
    requires ready { ReadyFile entry.file words × OfObjects objects (fields_of entry.file) }
    requires access { IsAccess access }
    requires out_value { out.old ≡ replicate (length out.old) 0 }
    requires room { descriptor_size * descriptors_of access (stretch_of entry) ≤ length out.old }
    ensures { Filled descriptor_size (descriptors_of access (stretch_of entry.entry))
        (access_blocks (fields_of entry.entry.file) access (stretch_of entry.entry)) out.old out.new result }
{
    let v = entry.value_at(access, b"all", b"[]");
    if text_lists::is_all(v) {
        let none = Stretch {
            file: entry.file,
            from: entry.to,
            to: entry.to,
        };
        write_descriptor(
            none,
            words,
            access,
            objects,
            &mut out[..layout::DESCRIPTOR_SIZE],
        );
        return 1;
    }
    write_items(entry, words, access, objects, out)
}

// The descriptors of an entry, its reads first: how many there are.
fn write_accesses(entry: Stretch, words: Words, objects: usize, out: &mut [u16]) -> usize
    requires ready { ReadyFile entry.file words × OfObjects objects (fields_of entry.file) }
    requires out_value { out.old ≡ replicate (length out.old) 0 }
    requires room { descriptor_size * descriptors_in (stretch_of entry) ≤ length out.old }
    ensures { Filled descriptor_size (descriptors_in (stretch_of entry.entry))
        (own_blocks (fields_of entry.entry.file) (stretch_of entry.entry)) out.old out.new result }
{
    let reads = write_access(entry, words, rows::CAN_READ, objects, out);
    let at = layout::DESCRIPTOR_SIZE * reads;
    let writes = write_access(entry, words, rows::CAN_WRITE, objects, &mut out[at..]);
    reads + writes
}

// The words of each entry's descriptors: how many descriptors there are.
fn write_descriptors(file: File, words: Words, objects: usize, out: &mut [u16]) -> usize
    requires ready { ReadyFile file words × OfObjects objects (fields_of file) }
    requires bounded { Bounded (fields_of file) }
    requires out_value { out.old ≡ replicate descriptors_size 0 }
    ensures { Filled descriptor_size (total descriptors_in (entries_of (fields_of file.entry)))
        (descriptor_blocks (fields_of file.entry) (entries_of (fields_of file.entry))) out.old out.new result }
{
    let mut d: usize = 0;
    for entry in file.entries() {
        let at = layout::DESCRIPTOR_SIZE * d;
        let more = write_accesses(entry, words, objects, &mut out[at..]);
        d += more;
    }
    d
}

// The entries, then their descriptors: how many entries there are.
fn write_privileges(
    file: File,
    words: Words,
    objects: usize,
    subjects: Names,
    out: &mut [u16],
) -> usize
    requires ready { ReadyFile file words × OfObjects objects (fields_of file)
        × OfSubjects file.text.now subjects.index.now subjects.count (fields_of file) }
    requires bounded { Bounded (fields_of file) }
    requires out_len { (length out.old ≡ privileges_size) × (out.old ≡ replicate (length out.old) 0) }
    ensures value { result ≡ length (entries_of (fields_of file.entry)) }
    ensures out_after { (out.new ≡ privilege_blocks (fields_of file.entry))
        × (length (privilege_blocks (fields_of file.entry)) ≡ privileges_size) }
{
    let entries = write_entries(file, words, subjects, &mut out[0..ENTRIES_SIZE]);
    write_descriptors(
        file,
        words,
        objects,
        &mut out[ENTRIES_SIZE..PRIVILEGES_SIZE],
    );
    entries
}

// The words of the file's policy, over zeros.
pub fn write_table(
    file: File,
    objects: usize,
    subjects: Names,
    functions: usize,
    words: Words,
    table: &mut [u16],
)
    requires few_fields { length file.fields.now ≤ most_fields }
    requires worded { WordedFile file words }
    requires of_maps { OfObjects objects (fields_of file)
        × OfSubjects file.text.now subjects.index.now subjects.count (fields_of file)
        × OfFunctions functions (fields_of file) }
    requires in_limits { (all_of is_numbered (fields_of file) ≡ true) × (over_limit (fields_of file) ≡ no_line) }
    requires zeros { (table_words ≤ length table.old) × (take table_words table.old ≡ replicate table_words 0) }
    ensures { table.new ≡ words_of (policy_of (fields_of file.entry)) ++ drop table_words table.old }
{
    let members = write_maps(file, &mut table[layout::OBJECTS_AT..layout::ENTRIES_AT]);
    let entries = write_privileges(
        file,
        words,
        objects,
        subjects,
        &mut table[layout::ENTRIES_AT..limit::TABLE_WORDS],
    );
    let counts = Counts {
        object_domains: objects,
        subject_domains: subjects.count,
        objects: members,
        functions,
        entries,
    };
    write_head(counts, &mut table[layout::MARK_AT..layout::OBJECTS_AT]);
}
