// 6: a count over its limit, at the line that passes it.
#![tactic(auto)]

ghost use Rattle.std.specs.Prelude.{◌≡◌, ℕ, ◌+◌, ◌*◌, ◌≤◌, cond, length};
ghost use Rattle.paper.specs.Limits.{most_members, most_descriptors};
ghost use Rattle.paper.specs.Page.{Field};
ghost use Rattle.paper.specs.Entries.{entries_of, line_of_entry};
ghost use Rattle.paper.specs.Rules.{first_with, passing, one_at, members_at, long_pattern, descriptors_in, over_limit};
ghost use Rattle.file_fields.specs.Fields.{stands_at, field_of};
ghost use Rattle.file_fields.specs.Stretches.{fields_of, stretch_of};
ghost use Rattle.file_limits.specs.Counts.{Few, Weighs, map_line};

use file_fields::file::{FieldAt, File};
use file_fields::stretch::Stretch;
use file_fields::values::element_count;
use file_fields::{earlier, is_call_context};
use paper::limit;
use text_keys::rows;
use text_lines::NO_LINE;

fn one_at(field: FieldAt, place: usize) -> usize
    ensures { result ≡ cond (stands_at place field) 1 0 }
{
    if field.place() == place { 1 } else { 0 }
}

// The elements of the list, where the field stands at the place.
fn members_at(file: File, field: FieldAt, place: usize) -> usize
    ensures value { result ≡ members_at place (field_of file.entry.text.now field) }
    ensures upper_bound { result ≤ length file.entry.text.now + 1 }
{
    if field.place() != place {
        return 0;
    }
    element_count(file.value(field))
}

// The line of the field with which the weights of the fields pass the limit.
fn passing_line<W: Fn(FieldAt) -> usize>(fields: Stretch, weight: W, most: usize) -> usize
    requires callable { W.IsAlwaysCallable weight }
    requires few { Few fields.file.text.now (W.post weight) }
    requires most_le_most_members { most ≤ most_members }
    ensures { (weigh : Field → ℕ) → Weighs fields.entry.file.text.now (W.post weight) weigh
        → result ≡ passing (λ f. f.line) weigh most 0 (stretch_of fields.entry) }
{
    let mut sum: usize = 0;
    for field in fields.fields() {
        sum += weight(*field);
        if most < sum {
            return field.line();
        }
    }
    NO_LINE
}

// The line of the field with which there are too many at a place.
fn count_line(fields: Stretch, place: usize, most: usize) -> usize
    requires { most ≤ most_members }
    ensures { result ≡ passing (λ f. f.line) (one_at place) most 0 (stretch_of fields.entry) }
{
    passing_line(fields, |field| one_at(field, place), most)
}

// The line of the field with which the lists at a place have too many elements.
fn members_line(fields: Stretch, place: usize) -> usize
    ensures { result ≡ passing (λ f. f.line) (members_at place) most_members 0 (stretch_of fields.entry) }
{
    passing_line(
        fields,
        |field| members_at(fields.file, field, place),
        limit::MEMBERS,
    )
}

fn is_long(file: File, field: FieldAt) -> bool
    ensures { result ≡ long_pattern (field_of file.entry.text.now field) }
{
    is_call_context(field.place()) && limit::ELEMENTS < element_count(file.value(field))
}

// The line of the first pattern that is too long.
fn long_line(file: File) -> usize
    ensures { result ≡ first_with long_pattern (fields_of file.entry) }
{
    for field in file.fields {
        if is_long(file, *field) {
            return field.line();
        }
    }
    NO_LINE
}

// How many access descriptors an entry has.
fn descriptors_in(entry: Stretch) -> usize
    ensures value { result ≡ descriptors_in (stretch_of entry.entry) }
    ensures upper_bound { result ≤ 2 * (1 + entry.entry.to) }
{
    entry.descriptors_of(rows::CAN_READ) + entry.descriptors_of(rows::CAN_WRITE)
}

// The line of the entry with which the access descriptors pass their limit.
fn descriptors_line(file: File) -> usize
    ensures { result ≡ passing line_of_entry descriptors_in most_descriptors 0 (entries_of (fields_of file.entry)) }
{
    let mut sum: usize = 0;
    for entry in file.entries() {
        sum += descriptors_in(entry);
        if limit::DESCRIPTORS < sum {
            return entry.line();
        }
    }
    NO_LINE
}

// The domains and members of both maps: fields behind them are not asked.
fn map_line(file: File, after: usize) -> usize
    ensures { result ≡ map_line (fields_of file.entry) after }
{
    let maps = file.maps();
    let objects = count_line(maps, rows::OBJECT_NAME, limit::DOMAINS);
    let subjects = count_line(maps, rows::SUBJECT_NAME, limit::DOMAINS);
    let object_members = members_line(maps, rows::OBJECT_MEMBERS);
    let subject_members = members_line(maps, rows::SUBJECT_MEMBERS);
    earlier(
        objects,
        earlier(
            subjects,
            earlier(object_members, earlier(subject_members, after)),
        ),
    )
}

// 6 over the whole file.
pub fn over_limit(file: File) -> usize
    ensures { result ≡ over_limit (fields_of file.entry) }
{
    let entries = count_line(file.all(), rows::PRINCIPAL, limit::ENTRIES);
    let patterns = long_line(file);
    let descriptors = descriptors_line(file);
    map_line(
        file,
        earlier(entries, earlier(patterns, earlier(descriptors, NO_LINE))),
    )
}
