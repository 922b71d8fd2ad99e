// Name lookup: any bytes, a map and a domain number to the very stretch of the bytes that holds the name. The reader's rules come first.
#![tactic(auto)]

ghost use Rattle.std.specs.Prelude.{◌≡◌, ◌+◌, ◌*◌, ◌≤◌, length, filter, slice_get};
ghost use Rattle.paper.specs.Entries.{fields_at};
ghost use Rattle.paper.specs.Rules.{ruled};
ghost use Rattle.paper.specs.Lookup.{stretch_of, names_of, name_among, name_in, VeryStretch};
ghost use Rattle.paper.specs.Promises.{lookup_answer};
ghost use Rattle.file_fields.specs.Fields.{field_of, stands_at};
ghost use Rattle.file_fields.specs.Listed.{most_fields};
ghost use Rattle.file_fields.specs.Stretches.{fields_of};
ghost use Rattle.file_names.specs.Naming.{SoundFile};
ghost use Rattle.file_read.specs.Readable.{Readable};
ghost use Rattle.file_lookup.specs.Place.{stretch_in, EndsWithBytes, InText};

use file_fields::file::{FieldAt, File, NOWHERE};
use file_fields::{MOST_FIELDS, list_fields};
use file_read::rule_fields;
use paper::{Map, Reading};
use text_keys::rows;

// Where a name stands in a text; 0 and 0 where there is none: an empty stretch at the front.
#[derive(Clone, Copy)]
pub struct Place {
    pub start: usize,
    pub end: usize,
}

// Where there is no name.
const NO_PLACE: Place = Place { start: 0, end: 0 };

// The place of the listing at which a map's names stand.
fn names_of(map: Map) -> usize
    ensures { result ≡ names_of map }
{
    match map {
        Map::Objects => rows::OBJECT_NAME,
        Map::Subjects => rows::SUBJECT_NAME,
    }
}

// Where the value of a field stands.
fn value_place(file: File, field: FieldAt) -> Place
    ensures result_value { stretch_in file.entry.text.now result ≡ stretch_of (field_of file.entry.text.now field) }
    ensures ends_with_bytes { EndsWithBytes file.entry.text.now result }
{
    let start = field.start();
    let value = file.value(field);
    Place {
        start,
        end: start + value.len(),
    }
}

// Number d of the fields that stand at a place of the listing.
fn field_among(file: File, place: usize, d: usize) -> Option<FieldAt>
    ensures { result ≡ slice_get (filter (stands_at place) file.entry.fields.now) d }
{
    file.fields
        .iter()
        .filter(|field| field.place() == place)
        .copied()
        .nth(d)
}

// Where number d of the names stands, those of the fields at a place of the listing.
fn name_among(file: File, place: usize, d: usize) -> Place
    ensures result_value { stretch_in file.entry.text.now result ≡ name_among (fields_at place (fields_of file.entry)) d }
    ensures ends_with_bytes { EndsWithBytes file.entry.text.now result }
{
    match field_among(file, place, d) {
        Some(field) => value_place(file, field),
        None => NO_PLACE,
    }
}

// The rules, as the reader has them.
fn name_in_fields(file: File, map: Map, domain: usize) -> Place
    requires sound { SoundFile file }
    requires few { length file.fields.now ≤ most_fields }
    requires readable { Readable (fields_of file) }
    ensures result_value { stretch_in file.entry.text.now result ≡ name_in map domain (ruled (fields_of file.entry)) }
    ensures ends_with_bytes { EndsWithBytes file.entry.text.now result }
{
    match rule_fields(file) {
        Reading::Unread { number: _, line: _ } => NO_PLACE,
        Reading::Accepted => name_among(file, names_of(map), domain),
    }
}

// Where the name of a domain stands.
pub fn name_place(text: &[u8], map: Map, domain: usize) -> Place
    ensures result_value { stretch_in text.now result ≡ lookup_answer text.now map domain }
    ensures in_text { InText text.now result }
{
    let mut list = [NOWHERE; MOST_FIELDS];
    match list_fields(text, &mut list) {
        Err(_) => NO_PLACE,
        Ok(n) => {
            let file = File {
                text,
                fields: &list[..n],
            };
            name_in_fields(file, map, domain)
        }
    }
}

// Name lookup: the very stretch of the lent text that holds the name.
pub fn name(text: &[u8], map: Map, domain: usize) -> &[u8]
    ensures { VeryStretch text.entry.ref_ptr result.ref_ptr result.now (lookup_answer text.now map domain) }
{
    let place = name_place(text, map, domain);
    &text[place.start..place.end]
}
