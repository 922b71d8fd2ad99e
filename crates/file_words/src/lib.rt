// The word of each name that an entry's lists and patterns have, looked up once: 7, 8 and the table go over the words.
#![tactic(auto)]

pub mod places;

ghost use Rattle.std.specs.Prelude.{◌≡◌, true, ◌++◌, map, ◌+◌, ◌*◌, ◌<◌, ◌≤◌, length, drop};
ghost use Rattle.paper.specs.Common.{all_of};
ghost use Rattle.paper.specs.Limits.{most_domains, most_members};
ghost use Rattle.paper.specs.Lists.{spaced, elements_in};
ghost use Rattle.file_fields.specs.Fields.{field_of, well_spaced, bytes_to};
ghost use Rattle.file_fields.specs.Stretches.{fields_of};
ghost use Rattle.file_index.specs.Words.{multiplier_in};
ghost use Rattle.file_index.specs.Buckets.{hash_of, numbers_in};
ghost use Rattle.file_words.specs.Hashed.{hashed_at};
ghost use Rattle.file_words.specs.Words.{numbers_from, element_word_by, word_by, field_words, words_in, Worded};

use crate::places::{Sought, sought_at};
use file_fields::file::{FieldAt, File};
use file_fields::values::inside;
use file_index::maps::MapNames;
use file_index::names::Names;
use paper::element;
use text_bytes::byte;
use text_lists::is_all;

// Room for the words of any text that is not too long, one for two bytes, and for where each field's start.
pub const WORDS: usize = 32768;

pub const STARTS: usize = 8193;

// An element, with its hash: it ends at `end`, and the next begins at `next`.
#[derive(Clone, Copy)]
pub struct Hashed {
    pub end: usize,
    pub next: usize,
    pub hash: usize,
}

// The element that begins at a place: its end and its hash are found in one go.
fn hashed_at(m: usize, s: &[u8], at: usize) -> Option<Hashed>
    ensures { result ≡ hashed_at m s.now at }
{
    if s.len() < at {
        return None;
    }
    let step = m % file_index::MULTIPLIERS;
    let mut hash: usize = 0;
    for end in at..s.len() {
        let b = s[end];
        if b == byte::COMMA {
            return Some(Hashed {
                end,
                next: end + 2,
                hash,
            });
        }
        hash = (hash * step + (b as usize)) % file_index::HASHES;
    }
    Some(Hashed {
        end: s.len(),
        next: s.len() + 2,
        hash,
    })
}

// The word of an element whose hash is h: functions are looked up first, since most elements are. What the last call takes is lent anew:
// a slice passed on as it came would be put into memory for each element, and not only for a domain.
fn element_word(t: &[u8], functions: Names, subjects: Names, h: usize, name: &[u8]) -> u16
    requires few_functions { functions.count ≤ most_members }
    requires few_subjects { subjects.count ≤ most_domains }
    requires h_value { h ≡ hash_of (multiplier_in functions.index.now) name.now }
    ensures { result ≡ element_word_by (numbers_in t.now functions.entry.index.now functions.entry.count) functions.entry.count
        (numbers_in t.now subjects.entry.index.now subjects.entry.count) name.now }
{
    if is_all(name) {
        return element::ALL;
    }
    let number = functions.number_hashed(t, h, name);
    if number < functions.count {
        return (number + 1) as u16;
    }
    element::FIRST_DOMAIN + (subjects.number_in(&t[0..], &name[0..]) as u16)
}

// The word of a name whose hash is h, in a pattern or in a list of domains.
fn word_of(t: &[u8], names: Names, subjects: Names, pattern: bool, h: usize, name: &[u8]) -> u16
    requires few_names { names.count ≤ most_members }
    requires few_subjects { subjects.count ≤ most_domains }
    requires h_value { h ≡ hash_of (multiplier_in names.index.now) name.now }
    ensures { result ≡ word_by pattern (numbers_in t.now names.entry.index.now names.entry.count) names.entry.count
        (numbers_in t.now subjects.entry.index.now subjects.entry.count) name.now }
{
    if pattern {
        element_word(t, names, subjects, h, name)
    } else {
        names.number_hashed(t, h, name) as u16
    }
}

// The words of the names between a list's brackets: how many there are.
fn write_words(
    t: &[u8],
    names: Names,
    subjects: Names,
    pattern: bool,
    s: &[u8],
    out: &mut [u16],
) -> usize
    requires few_names { names.count ≤ most_members }
    requires few_subjects { subjects.count ≤ most_domains }
    requires s_value { spaced 0 s.now ≡ true }
    requires s_in_bounds { length (elements_in s.now) ≤ length out.old }
    ensures value { result ≡ length (elements_in s.now) }
    ensures out_after { out.new ≡ map (word_by pattern (numbers_in t.now names.entry.index.now names.entry.count) names.entry.count
        (numbers_in t.now subjects.entry.index.now subjects.entry.count)) (elements_in s.now) ++ drop result out.old }
{
    let m = names.multiplier();
    let mut w: usize = 0;
    let mut at = text_lists::first_element(s);
    while let Some(found) = hashed_at(m, s, at) {
        let name = &s[at..found.end];
        out[w] = word_of(t, names, subjects, pattern, found.hash, name);
        w += 1;
        at = found.next;
    }
    w
}

// The words of the domains between a list's brackets: how many there are.
fn domain_words(t: &[u8], names: Names, s: &[u8], out: &mut [u16]) -> usize
    requires few_names { names.count ≤ most_domains }
    requires s_value { spaced 0 s.now ≡ true }
    requires s_in_bounds { length (elements_in s.now) ≤ length out.old }
    ensures value { result ≡ length (elements_in s.now) }
    ensures out_after { out.new ≡ map (numbers_in t.now names.entry.index.now names.entry.count) (elements_in s.now) ++ drop result out.old }
{
    write_words(t, names, names, false, s, out)
}

// The words of a field's names: how many there are.
fn field_words(t: &[u8], field: FieldAt, maps: MapNames, out: &mut [u16]) -> usize
    requires spaced { well_spaced (field_of t.now field) ≡ true }
    requires room { length (field_words (numbers_from t.now maps) (field_of t.now field)) ≤ length out.old }
    ensures value { result ≡ length (field_words (numbers_from t.now maps.entry) (field_of t.now field)) }
    ensures out_after { out.new ≡ field_words (numbers_from t.now maps.entry) (field_of t.now field) ++ drop result out.old }
{
    let s = inside(field.value(t));
    match sought_at(field.place()) {
        Sought::Subjects => domain_words(t, maps.subjects, s, out),
        Sought::Objects => domain_words(t, maps.objects, s, out),
        Sought::Elements => write_words(t, maps.functions, maps.subjects, true, s, out),
        Sought::Subject => 0,
        Sought::Nothing => 0,
    }
}

// The words of all fields, and where each field's start.
pub fn look_up(file: File, maps: MapNames, words: &mut [u16], starts: &mut [usize])
    requires spaced { all_of well_spaced (fields_of file) ≡ true }
    requires room { (bytes_to file.fields.now (length file.fields.now) ≤ 2 * length words.old) × (length file.fields.now < length starts.old) }
    ensures { Worded (numbers_from file.entry.text.now maps.entry) file.entry.text.now file.entry.fields.now (length file.entry.fields.now) words.new starts.new }
{
    starts[0] = 0;
    let mut w: usize = 0;
    for (i, field) in file.fields.iter().enumerate() {
        w += field_words(file.text, *field, maps, &mut words[w..]);
        starts[i + 1] = w;
    }
}

// The words of fields' names, one behind the other, and where each field's start.
#[derive(Clone, Copy)]
pub struct Words<'a> {
    pub words: &'a [u16],
    pub starts: &'a [usize],
}

impl<'a> Words<'a> {
    // The words of field i's names.
    pub fn of(self, i: usize) -> &'a [u16]
        requires { i + 1 < length self.starts.now }
        ensures { result.now ≡ words_in self.entry.words.now self.entry.starts.now i }
    {
        let start = self.starts[i];
        let end = self.starts[i + 1];
        if end < start {
            return &[];
        }
        table::part(self.words, start, end - start)
    }
}
