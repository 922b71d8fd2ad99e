// The names of a map put into an index one after the other, up to the first that is there already.
ghost use Rattle.std.specs.Prelude.{◌≡◌, true, cond, [], ◌+◌, ◌-◌, ◌*◌, ◌<◌, ◌≤◌, ltb, length, take, drop};
ghost use Rattle.paper.specs.Rules.{members_named};
ghost use Rattle.file_fields.specs.Fields.{field_at, well_spaced};
ghost use Rattle.file_fields.specs.Stretches.{fields_of};
ghost use Rattle.file_index.specs.Words.{names_at, name_size, multiplier_in};
ghost use Rattle.file_index.specs.Buckets.{hash_of, numbers_in, inserted, Index};
ghost use Rattle.file_names.specs.Naming.{SoundFile, named_at, named, names_to, NamesEnd, EnteredAs, IndexedAs};

use file_fields::file::File;
use file_fields::values::inside;
use file_index::names::{Names, Place};
use file_words::places::is_either;
use text_lines::NO_LINE;

// What a field names: a domain, where it stands at one of two places; the members of a list, where it stands at a place.
#[derive(Clone, Copy)]
pub enum Naming {
    Domains { one: usize, other: usize },
    Members { place: usize },
}

// How many names went in, and the line at which one was there already.
#[derive(Clone, Copy)]
pub struct Indexed {
    pub names: usize,
    pub twice: usize,
}

// Puts a stretch of the text in as name n, unless it is there: that it was is the answer.
fn enter(t: &[u8], ix: &mut [usize], n: usize, start: usize, end: usize) -> bool
    requires { names_at + name_size * (n + 1) ≤ length ix.old }
    ensures value { result ≡ ltb (numbers_in t.now ix.old n (take (end - start) (drop start t.now))) n }
    ensures ix_after { ix.new ≡ cond result ix.old
        (inserted t.now ix.old n start end
        (hash_of (multiplier_in ix.old) (take (end - start) (drop start t.now)))) }
{
    let name = text_bytes::part(t, start, end);
    let known = Names {
        index: ix,
        count: n,
    };
    let h = known.hash(name);
    match known.way_end(t, h, name) {
        Place::Found(_) => true,
        Place::Free(w) => {
            file_index::insert(ix, n, w, start, end, h);
            false
        }
    }
}

// Puts the domain that field i names in.
fn enter_domain(
    file: File,
    i: usize,
    one: usize,
    other: usize,
    ix: &mut [usize],
    n: usize,
) -> Option<usize>
    requires i_in_bounds { i < length file.fields.now }
    requires index { Index file.text.now ix.old n (names_to (named_at one other) file.text.now file.fields.now i) }
    requires room { names_at + name_size * (n + length (named_at one other (field_at file.text.now file.fields.now i))) ≤ length ix.old }
    ensures entered_as { EnteredAs file.entry.text.now ix.new (names_to (named_at one other) file.entry.text.now file.entry.fields.now i)
        (named_at one other (field_at file.entry.text.now file.entry.fields.now i)) result }
    ensures ix_len_unchanged { length ix.new ≡ length ix.old }
{
    let field = file.fields[i];
    if !is_either(field.place(), one, other) {
        return Some(n);
    }
    let start = field.start();
    let end = start + file.value(field).len();
    if enter(file.text, ix, n, start, end) {
        return None;
    }
    Some(n + 1)
}

// Puts the members that field i names in.
fn enter_members(file: File, i: usize, place: usize, ix: &mut [usize], n: usize) -> Option<usize>
    requires i_in_bounds { i < length file.fields.now }
    requires i_value { well_spaced (field_at file.text.now file.fields.now i) ≡ true }
    requires index { Index file.text.now ix.old n (names_to (members_named place) file.text.now file.fields.now i) }
    requires room { names_at + name_size * (n + length (members_named place (field_at file.text.now file.fields.now i))) ≤ length ix.old }
    ensures entered_as { EnteredAs file.entry.text.now ix.new (names_to (members_named place) file.entry.text.now file.entry.fields.now i)
        (members_named place (field_at file.entry.text.now file.entry.fields.now i)) result }
    ensures ix_len_unchanged { length ix.new ≡ length ix.old }
{
    let field = file.fields[i];
    if field.place() != place {
        return Some(n);
    }
    let s = inside(file.value(field));
    let start = field.start();
    let mut names = n;
    let mut at = text_lists::first_element(s);
    while let Some(element) = text_lists::element_at(s, at) {
        if enter(
            file.text,
            ix,
            names,
            start + 1 + at,
            start + 1 + element.end,
        ) {
            return None;
        }
        names += 1;
        at = element.next;
    }
    Some(names)
}

// Puts what field i names in.
fn enter_field(file: File, i: usize, naming: Naming, ix: &mut [usize], n: usize) -> Option<usize>
    requires i_in_bounds { i < length file.fields.now }
    requires i_value { well_spaced (field_at file.text.now file.fields.now i) ≡ true }
    requires index { Index file.text.now ix.old n (names_to (named naming) file.text.now file.fields.now i) }
    requires room { names_at + name_size * (n + length (named naming (field_at file.text.now file.fields.now i))) ≤ length ix.old }
    ensures entered_as { EnteredAs file.entry.text.now ix.new (names_to (named naming) file.entry.text.now file.entry.fields.now i) (named naming (field_at file.entry.text.now file.entry.fields.now i)) result }
    ensures ix_len_unchanged { length ix.new ≡ length ix.old }
{
    match naming {
        Naming::Domains { one, other } => enter_domain(file, i, one, other, ix, n),
        Naming::Members { place } => enter_members(file, i, place, ix, n),
    }
}

// What the fields name put into an index: none is asked from `end` on, where they name nothing.
fn index_all(file: File, end: usize, naming: Naming, ix: &mut [usize]) -> Indexed
    requires sound { SoundFile file }
    requires index { Index file.text.now ix.old 0 [] }
    requires n_in_bounds { names_at + name_size * length (names_to (named naming) file.text.now file.fields.now (length file.fields.now)) ≤ length ix.old }
    requires names_end { NamesEnd (named naming) file.text.now file.fields.now (length file.fields.now) end }
    ensures indexed_as { IndexedAs (named naming) file.entry.text.now ix.new (fields_of file.entry) result }
    ensures ix_len_unchanged { length ix.new ≡ length ix.old }
{
    let mut names: usize = 0;
    for i in 0..end {
        match enter_field(file, i, naming, ix, names) {
            Some(count) => {
                names = count;
            }
            None => {
                return Indexed {
                    names,
                    twice: file.fields[i].line(),
                };
            }
        }
    }
    Indexed {
        names,
        twice: NO_LINE,
    }
}

// The domains named at two places, or at one that is given twice.
pub fn index_domains(file: File, end: usize, one: usize, other: usize, ix: &mut [usize]) -> Indexed
    requires sound { SoundFile file }
    requires index { Index file.text.now ix.old 0 [] }
    requires n_in_bounds { names_at + name_size * length (names_to (named_at one other) file.text.now file.fields.now (length file.fields.now)) ≤ length ix.old }
    requires names_end { NamesEnd (named_at one other) file.text.now file.fields.now (length file.fields.now) end }
    ensures indexed_as { IndexedAs (named_at one other) file.entry.text.now ix.new (fields_of file.entry) result }
    ensures ix_len_unchanged { length ix.new ≡ length ix.old }
{
    index_all(file, end, Naming::Domains { one, other }, ix)
}

// The members of a map, by the place of its lists.
pub fn index_members(file: File, end: usize, place: usize, ix: &mut [usize]) -> Indexed
    requires sound { SoundFile file }
    requires index { Index file.text.now ix.old 0 [] }
    requires n_in_bounds { names_at + name_size * length (names_to (members_named place) file.text.now file.fields.now (length file.fields.now)) ≤ length ix.old }
    requires names_end { NamesEnd (members_named place) file.text.now file.fields.now (length file.fields.now) end }
    ensures indexed_as { IndexedAs (members_named place) file.entry.text.now ix.new (fields_of file.entry) result }
    ensures ix_len_unchanged { length ix.new ≡ length ix.old }
{
    index_all(file, end, Naming::Members { place }, ix)
}
