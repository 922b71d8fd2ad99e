// A text with the list of its fields: every rule, the table and the filled text are made from it.
ghost use Rattle.std.specs.Prelude.{◌≡◌, cond, length};
ghost use Rattle.paper.specs.Common.{is_empty};
ghost use Rattle.file_fields.specs.Fields.{value_of, maps_end};

use text_keys::rows;

// Where a field stands: its place in the listing, its line, and where its value starts and ends in the text.
#[derive(Clone, Copy)]
pub struct FieldAt {
    pub place: u32,
    pub line: u32,
    pub start: u32,
    pub end: u32,
}

// What a list is filled with before it has fields.
pub const NOWHERE: FieldAt = FieldAt {
    place: 0,
    line: 0,
    start: 0,
    end: 0,
};

impl FieldAt {
    pub fn place(self) -> usize
        ensures { result ≡ self.place }
    {
        self.place as usize
    }

    pub fn line(self) -> usize
        ensures { result ≡ self.line }
    {
        self.line as usize
    }

    pub fn start(self) -> usize
        ensures { result ≡ self.start }
    {
        self.start as usize
    }

    fn end(self) -> usize
        ensures { result ≡ self.end }
    {
        self.end as usize
    }

    // Its value in the text.
    pub fn value<'a>(self, t: &'a [u8]) -> &'a [u8]
        ensures { result.now ≡ value_of t.now self }
    {
        text_bytes::part(t, self.start(), self.end())
    }
}

#[derive(Clone, Copy)]
pub struct File<'a> {
    pub text: &'a [u8],
    pub fields: &'a [FieldAt],
}

impl<'a> File<'a> {
    // The value of a field.
    pub fn value(self, field: FieldAt) -> &'a [u8]
        ensures { result.now ≡ value_of self.entry.text.now field }
    {
        field.value(self.text)
    }

    // The value of a field, or what it means that the field is bare.
    pub fn value_or(self, field: FieldAt, none: &'a [u8]) -> &'a [u8]
        ensures { result.now ≡ cond (is_empty (value_of self.entry.text.now field)) none.now (value_of self.entry.text.now field) }
    {
        let v = self.value(field);
        if v.len() == 0 { none } else { v }
    }

    // The number behind the last field that stands in a map.
    pub(crate) fn maps_end(self) -> usize
        ensures { result ≡ maps_end self.entry.fields.now (length self.entry.fields.now) }
    {
        let mut rest = self.fields;
        while let Some((last, front)) = rest.split_last() {
            if last.place() < rows::PRINCIPAL {
                return rest.len();
            }
            rest = front;
        }
        0
    }
}
