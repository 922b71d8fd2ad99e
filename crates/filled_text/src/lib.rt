// The filled text, entry by entry: each function puts the text that the paper gives its name, and the whole is written on what is lent.
#![tactic(auto)]

ghost use mathlib.Core.List.{flat_map};
ghost use Rattle.paper.specs.Entries.{entries_of};
ghost use Rattle.paper.specs.Filled.{written_line, entry_text, filled_text};
ghost use Rattle.std.specs.Prelude.{◌-◌, length};
ghost use Rattle.paper.specs.Listing.{principal};
ghost use Rattle.file_fields.specs.Fields.{field_of, next_at};
ghost use Rattle.file_fields.specs.Stretches.{stretch_of, fields_of, IsPart};
ghost use Rattle.filled_lines.specs.Wrote.{Fits, Wrote};

use file_fields::file::{FieldAt, File};
use file_fields::stretch::Stretch;
use filled_lines::page::Page;
use filled_lines::sink::Sink;
use filled_parts::{access, context, value_line};
use text_keys::rows;

fn entry<S: Sink>(fields: Stretch, sink: &mut S)
    requires { S.Fits sink.old (entry_text (stretch_of fields)) }
    ensures { S.Put sink.old (entry_text (stretch_of fields.entry)) sink.new }
{
    sink.bare_line(rows::PRINCIPAL);
    value_line(fields, rows::SUBJECT, b"all", sink);
    context(fields, rows::EXECUTION_CONTEXT, sink);
    value_line(fields, rows::CAN_CALL, b"all", sink);
    value_line(fields, rows::CAN_RETURN, b"all", sink);
    access(fields, rows::CAN_READ, sink);
    access(fields, rows::CAN_WRITE, sink);
}

fn entries<S: Sink>(file: File, sink: &mut S)
    requires { S.Fits sink.old (flat_map entry_text (entries_of (fields_of file))) }
    ensures { S.Put sink.old (flat_map entry_text (entries_of (fields_of file.entry))) sink.new }
{
    for fields in file.entries() {
        entry(fields, sink);
    }
}

// The line of a field as it was written.
fn written_line<S: Sink>(file: File, field: FieldAt, sink: &mut S)
    requires { S.Fits sink.old (written_line (field_of file.text.now field)) }
    ensures { S.Put sink.old (written_line (field_of file.entry.text.now field)) sink.new }
{
    let v = file.value(field);
    if v.len() == 0 {
        sink.bare_line(field.place());
    } else {
        sink.key_line(field.place(), v);
    }
}

// These fields, each as it was written.
fn written_lines<S: Sink>(fields: Stretch, sink: &mut S)
    requires { S.Fits sink.old (flat_map written_line (stretch_of fields)) }
    ensures { S.Put sink.old (flat_map written_line (stretch_of fields.entry)) sink.new }
{
    for field in fields.fields() {
        written_line(fields.file, *field, sink);
    }
}

// The fields of the maps: those before the first `principal`.
fn maps<'a>(file: File<'a>) -> Stretch<'a>
    ensures { IsPart file.entry 0 (next_at file.entry.fields.now principal 0 (length file.entry.fields.now - 0)) result }
{
    Stretch {
        file,
        from: 0,
        to: file.all().next_at(rows::PRINCIPAL),
    }
}

// The whole filled text.
pub fn put_filled<S: Sink>(file: File, sink: &mut S)
    requires { S.Fits sink.old (filled_text (fields_of file)) }
    ensures { S.Put sink.old (filled_text (fields_of file.entry)) sink.new }
{
    written_lines(maps(file), sink);
    entries(file, sink);
}

// It stands at the front of what is lent, and the answer is how far.
pub fn write_filled(file: File, out: &mut [u8]) -> usize
    requires { Fits (filled_text (fields_of file)) out.old }
    ensures { Wrote (filled_text (fields_of file.entry)) out.old out.new result }
{
    let mut page = Page { out, at: 0 };
    put_filled(file, &mut page);
    page.at
}
