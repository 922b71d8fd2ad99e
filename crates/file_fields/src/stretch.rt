// Fields of a file that follow one another: all of them, those of an entry, or those of an item.
ghost use Rattle.std.specs.Prelude.{◌≡◌, ◌+◌, ◌-◌, ◌<◌, ◌≤◌, min, length, take, drop, IfSome};
ghost use Rattle.std.specs.List.{position};
ghost use Rattle.file_fields.specs.Fields.{is_key, next_at};
ghost use Rattle.file_fields.specs.Places.{IsAccess, IsContext};

use crate::file::{FieldAt, File};
use text_keys::rows;

// From one number of the list up to another.
#[derive(Clone, Copy)]
pub struct Stretch<'a> {
    pub file: File<'a>,
    pub from: usize,
    pub to: usize,
    ghost ordered: { from ≤ to },
    ghost listed: { to ≤ length file.fields.now },
}

// A place is that of a key of the context at another.
fn is_key(context: usize, place: usize) -> bool
    requires { IsContext context }
    ensures { result ≡ is_key context place }
{
    (context < place) & (place <= context + rows::NAMESPACE)
}

impl<'a> Stretch<'a> {
    ghost use Rattle.paper.specs.Rules.{descriptors_of};
    ghost use Rattle.file_fields.specs.Fields.{line_in, stands_at, is_key_of, count_at, value_or};
    ghost use Rattle.file_fields.specs.Stretches.{stretch_of, KeysOf, Begins};

    pub fn fields(self) -> &'a [FieldAt]
        ensures { result.now ≡ take (self.entry.to - self.entry.from) (drop self.entry.from self.entry.file.fields.now) }
    {
        &self.file.fields[self.from..self.to]
    }

    // The line of its first field.
    pub fn line(self) -> usize
        requires { self.from < self.to }
        ensures { result ≡ line_in self.entry.file.fields.now self.entry.from }
    {
        self.file.fields[self.from].line()
    }

    // Which of them is the first of a place.
    fn first_at(self, place: usize) -> Option<usize>
        ensures { result ≡ position (stands_at place) (take (self.entry.to - self.entry.from) (drop self.entry.from self.entry.file.fields.now)) }
    {
        self.fields()
            .iter()
            .position(|field| field.place() == place)
    }

    // The number of the next field of a place; where there is none, the number behind the stretch.
    pub fn next_at(self, place: usize) -> usize
        ensures { result ≡ next_at self.entry.file.fields.now place self.entry.from (self.entry.to - self.entry.from) }
    {
        match self.first_at(place) {
            Some(i) => self.from + i,
            None => self.to,
        }
    }

    // Which of them is the first at a key of the context at a place.
    fn first_key(self, context: usize) -> Option<usize>
        requires { IsContext context }
        ensures value { result ≡ position (is_key_of context) (take (self.entry.to - self.entry.from) (drop self.entry.from self.entry.file.fields.now)) }
        ensures bound { IfSome result (λ i. i < length (take (self.entry.to - self.entry.from) (drop self.entry.from self.entry.file.fields.now))) }
    {
        self.fields()
            .iter()
            .position(|field| is_key(context, field.place()))
    }

    // From the first key of the context at a place on; most contexts have no key.
    pub fn keys_of(self, context: usize) -> Option<Stretch<'a>>
        requires { IsContext context }
        ensures { KeysOf self.entry context result }
    {
        match self.first_key(context) {
            Some(i) => Some(Stretch {
                file: self.file,
                from: self.from + i,
                to: self.to,
            }),
            None => None,
        }
    }

    // How many of them stand at a place.
    pub fn count_at(self, place: usize) -> usize
        ensures { result ≡ count_at self.entry.file.fields.now place self.entry.from (self.entry.to - self.entry.from) }
    {
        self.fields()
            .iter()
            .filter(|field| field.place() == place)
            .count()
    }

    // The value at a place, or what an omitted field or a bare one means.
    pub fn value_at(self, place: usize, omitted: &'a [u8], none: &'a [u8]) -> &'a [u8]
        ensures { result.now ≡ value_or omitted.now none.now place (stretch_of self.entry) }
    {
        match self.first_at(place) {
            Some(i) => self.file.value_or(self.fields()[i], none),
            None => omitted,
        }
    }

    // How many access descriptors `can_read` or `can_write` of an entry is.
    pub fn descriptors_of(self, access: usize) -> usize
        requires { IsAccess access }
        ensures value { result ≡ descriptors_of access (stretch_of self.entry) }
        ensures upper_bound { result ≤ 1 + self.entry.to }
    {
        let v = self.value_at(access, b"all", b"[]");
        if text_lists::is_all(v) {
            return 1;
        }
        self.count_at(access + 1)
    }

    // The stretches in it that begin with a field of a place, each up to the next one.
    pub fn each(self, place: usize) -> Stretches<'a>
        ensures { Begins self.entry.file place self.entry.from self.entry.to result }
    {
        Stretches {
            place,
            rest: Stretch {
                file: self.file,
                from: self.next_at(place),
                to: self.to,
            },
        }
    }
}

impl<'a> File<'a> {
    ghost use Rattle.paper.specs.Listing.{principal};
    ghost use Rattle.file_fields.specs.Fields.{between, maps_end};
    ghost use Rattle.file_fields.specs.Stretches.{stretch_of, IsPart, Begins};

    // From one number up to another; where the other is the smaller one, there are no fields between them.
    pub fn part(self, from: usize, to: usize) -> Stretch<'a>
        requires { to ≤ length self.fields.now }
        ensures place { IsPart self.entry (min from to) to result }
        ensures fields { stretch_of result ≡ between self.entry.text.now self.entry.fields.now from to }
    {
        Stretch {
            file: self,
            from: from.min(to),
            to,
        }
    }

    pub fn all(self) -> Stretch<'a>
        ensures { IsPart self.entry 0 (length self.entry.fields.now) result }
    {
        self.part(0, self.fields.len())
    }

    // The fields up to the last that stands in a map.
    pub fn maps(self) -> Stretch<'a>
        ensures { IsPart self.entry 0 (maps_end self.entry.fields.now (length self.entry.fields.now)) result }
    {
        self.part(0, self.maps_end())
    }

    pub fn entries(self) -> Stretches<'a>
        ensures { Begins self.entry principal 0 (length self.entry.fields.now) result }
    {
        self.all().each(rows::PRINCIPAL)
    }
}

// Stretches one after the other, of which so much is left: it begins with a field of their place, or there is none.
#[derive(Clone, Copy)]
pub struct Stretches<'a> {
    place: usize,
    rest: Stretch<'a>,
    ghost stands: { next_at rest.file.fields.now place rest.from (rest.to - rest.from) ≡ rest.from },
}

impl<'a> Iterator for Stretches<'a> {
    ghost use Rattle.file_fields.specs.Stretches.{GivesNext, left_at_most};

    type Item = Stretch<'a>;

    ghost next_gives = { GivesNext };

    ghost remaining = { left_at_most };

    fn next(&mut self) -> Option<Stretch<'a>> {
        let file = self.rest.file;
        let from = self.rest.from;
        let end = self.rest.to;
        if from == end {
            return None;
        }
        let behind = Stretch {
            file,
            from: from + 1,
            to: end,
        };
        let to = behind.next_at(self.place);
        self.rest = Stretch {
            file,
            from: to,
            to: end,
        };
        Some(Stretch { file, from, to })
    }
}
