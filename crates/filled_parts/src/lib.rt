// The parts of an entry of the filled text, contexts, items and accesses: each function puts the text that the paper gives its name.
#![tactic(auto)]

ghost use Rattle.std.specs.Prelude.{◌≡◌};
ghost use mathlib.Core.List.{flat_map};
ghost use Rattle.paper.specs.Entries.{default_at, items_of};
ghost use Rattle.paper.specs.Filled.{value_line, context_text, item_text, access_text};
ghost use Rattle.file_fields.specs.Places.{IsAccess, IsContext};
ghost use Rattle.file_fields.specs.Stretches.{stretch_of};

use file_fields::stretch::Stretch;
use filled_lines::sink::Sink;
use text_keys::rows;

// The value at a place among these fields, or its default.
pub fn value_line<'a, S: Sink>(fields: Stretch<'a>, place: usize, omitted: &'a [u8], sink: &mut S)
    requires place_value { default_at place ≡ omitted.now }
    requires fits { S.Fits sink.old (value_line place (stretch_of fields)) }
    ensures { S.Put sink.old (value_line place (stretch_of fields.entry)) sink.new }
{
    let v = fields.value_at(place, omitted, b"[]");
    sink.key_line(place, v);
}

// A context with some of its keys.
fn found_context<S: Sink>(keys: Stretch, place: usize, sink: &mut S)
    requires context { IsContext place }
    requires fits { S.Fits sink.old (context_text place (stretch_of keys)) }
    ensures { S.Put sink.old (context_text place (stretch_of keys.entry)) sink.new }
{
    sink.bare_line(place);
    value_line(keys, place + rows::CALL_CONTEXT, b"[all]", sink);
    value_line(keys, place + rows::UID, b"all", sink);
    value_line(keys, place + rows::GID, b"all", sink);
    value_line(keys, place + rows::NAMESPACE, b"all", sink);
}

// A context: most have no key, and one is looked for first.
pub fn context<S: Sink>(fields: Stretch, place: usize, sink: &mut S)
    requires context { IsContext place }
    requires fits { S.Fits sink.old (context_text place (stretch_of fields)) }
    ensures { S.Put sink.old (context_text place (stretch_of fields.entry)) sink.new }
{
    match fields.keys_of(place) {
        Some(keys) => found_context(keys, place, sink),
        None => {
            sink.bare_line(place);
            sink.omitted_keys();
        }
    }
}

fn item<S: Sink>(fields: Stretch, access: usize, sink: &mut S)
    requires access { IsAccess access }
    requires fits { S.Fits sink.old (item_text access (stretch_of fields)) }
    ensures { S.Put sink.old (item_text access (stretch_of fields.entry)) sink.new }
{
    value_line(fields, access + rows::ITEM_OBJECTS, b"all", sink);
    context(fields, access + rows::ITEM_CONTEXT, sink);
}

fn items<S: Sink>(fields: Stretch, access: usize, sink: &mut S)
    requires access { IsAccess access }
    requires fits { S.Fits sink.old (flat_map (item_text access) (items_of access (stretch_of fields))) }
    ensures { S.Put sink.old (flat_map (item_text access) (items_of access (stretch_of fields.entry))) sink.new }
{
    for of_item in fields.each(access + rows::ITEM_OBJECTS) {
        item(of_item, access, sink);
    }
}

pub fn access<S: Sink>(fields: Stretch, access: usize, sink: &mut S)
    requires access { IsAccess access }
    requires fits { S.Fits sink.old (access_text access (stretch_of fields)) }
    ensures { S.Put sink.old (access_text access (stretch_of fields.entry)) sink.new }
{
    if fields.next_at(access + rows::ITEM_OBJECTS) < fields.to {
        sink.bare_line(access);
        items(fields, access, sink);
    } else {
        value_line(fields, access, b"all", sink);
    }
}
