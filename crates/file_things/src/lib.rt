// The things that a field names, and where their names stand: how many words they take,
// and these words written at the front of what is lent.
#![tactic(auto)]

pub mod kind;

ghost use Rattle.std.specs.Prelude.{◌≡◌, true, ◌+◌, ◌*◌, ◌<◌, ◌≤◌, length};
ghost use Rattle.paper.specs.Limits.{text_bytes};
ghost use Rattle.file_fields.specs.Fields.{field_of, field_at, well_spaced};
ghost use Rattle.file_fields.specs.Stretches.{fields_of};
ghost use Rattle.file_fields.specs.Listed.{most_fields};
ghost use Rattle.filled_lines.specs.Wrote.{Wrote};
ghost use Rattle.file_things.specs.Things.{thing_size, thing, name_thing, each_thing, naming_at, things_of, thing_count};
ghost use Rattle.file_things.specs.Writable.{Writable, entry_at, things_at, most_words};

use file_fields::file::{FieldAt, File};
use file_fields::values::{element_count, inside};
use text_keys::rows;

// So many words stand for a thing.
pub const THING_SIZE: usize = 4;

// What a field names: its value is a name of a kind, each element of its list is one, it begins an entry, or it names nothing.
#[derive(Clone, Copy)]
pub enum Naming {
    One(u32),
    Each(u32),
    Entry,
    Nothing,
}

fn naming_at(place: usize) -> Naming
    ensures { result ≡ naming_at place }
{
    match place {
        rows::OBJECT_NAME => Naming::One(kind::OBJECT_DOMAIN),
        rows::OBJECT_MEMBERS => Naming::Each(kind::OBJECT),
        rows::SUBJECT_NAME => Naming::One(kind::SUBJECT_DOMAIN),
        rows::SUBJECT_MEMBERS => Naming::Each(kind::FUNCTION),
        rows::PRINCIPAL => Naming::Entry,
        _ => Naming::Nothing,
    }
}

// How many words the things of a field take.
fn field_words(file: File, field: FieldAt) -> usize
    requires { length file.text.now ≤ text_bytes }
    ensures { (result ≡ thing_size * thing_count (field_of file.entry.text.now field)) × (result ≤ most_words) }
{
    match naming_at(field.place()) {
        Naming::One(_) => THING_SIZE,
        Naming::Each(_) => THING_SIZE * element_count(file.value(field)),
        Naming::Entry => THING_SIZE,
        Naming::Nothing => 0,
    }
}

// How many words the whole list takes.
pub fn list_words(file: File) -> usize
    requires { (length file.text.now ≤ text_bytes) × (length file.fields.now ≤ most_fields) }
    ensures { (result ≡ length (things_of (fields_of file.entry))) × (result ≤ most_words * length file.entry.fields.now) }
{
    let mut words: usize = 0;
    for field in file.fields {
        words += field_words(file, *field);
    }
    words
}

fn put_thing(kind: u32, line: usize, start: usize, size: usize, out: &mut [u32]) -> usize
    requires { Writable (thing kind line start size) out.old }
    ensures { Wrote (thing kind line start size) out.old out.new result }
{
    out[0] = kind;
    out[1] = line as u32;
    out[2] = start as u32;
    out[3] = size as u32;
    THING_SIZE
}

// A thing on the line of one field whose name is the value of a field, its own or another.
fn put_name(file: File, kind: u32, field: FieldAt, named: FieldAt, out: &mut [u32]) -> usize
    requires { Writable (name_thing kind (field_of file.text.now field) (field_of file.text.now named)) out.old }
    ensures { Wrote (name_thing kind (field_of file.entry.text.now field) (field_of file.entry.text.now named)) out.old out.new result }
{
    let name = file.value(named);
    put_thing(kind, field.line(), named.start(), name.len(), out)
}

// The elements of a field's list, one behind the other.
fn put_each(file: File, kind: u32, field: FieldAt, out: &mut [u32]) -> usize
    requires spaced { well_spaced (field_of file.text.now field) ≡ true }
    requires writable { Writable (each_thing kind (field_of file.text.now field)) out.old }
    ensures { Wrote (each_thing kind (field_of file.entry.text.now field)) out.old out.new result }
{
    let s = inside(file.value(field));
    let line = field.line();
    let start = field.start();
    let mut end: usize = 0;
    let mut at = text_lists::first_element(s);
    while let Some(element) = text_lists::element_at(s, at) {
        end += put_thing(
            kind,
            line,
            start + 1 + at,
            element.end - at,
            &mut out[end..],
        );
        at = element.next;
    }
    end
}

// The entry that begins with field i. Where no field stands behind it, it has no name.
fn put_entry(file: File, i: usize, out: &mut [u32]) -> usize
    requires i_in_bounds { i < length file.fields.now }
    requires writable { Writable (entry_at file i) out.old }
    ensures { Wrote (entry_at file.entry i) out.old out.new result }
{
    let field = file.fields[i];
    match file.fields.get(i + 1) {
        Some(subject) => put_name(file, kind::ENTRY, field, *subject, out),
        None => put_thing(kind::ENTRY, field.line(), 0, 0, out),
    }
}

// The things of field i.
pub fn put_field(file: File, i: usize, out: &mut [u32]) -> usize
    requires i_in_bounds { i < length file.fields.now }
    requires i_value { well_spaced (field_at file.text.now file.fields.now i) ≡ true }
    requires writable { Writable (things_at file i) out.old }
    ensures { Wrote (things_at file.entry i) out.old out.new result }
{
    let field = file.fields[i];
    match naming_at(field.place()) {
        Naming::One(kind) => put_name(file, kind, field, field, out),
        Naming::Each(kind) => put_each(file, kind, field, out),
        Naming::Entry => put_entry(file, i, out),
        Naming::Nothing => 0,
    }
}
