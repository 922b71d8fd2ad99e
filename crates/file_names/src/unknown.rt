// 8: a domain or an element that its map lacks.
ghost use Rattle.std.specs.Prelude.{◌≡◌, ◌<◌, length};
ghost use Rattle.paper.specs.Rules.{names_unknown, unknown_name};
ghost use Rattle.file_fields.specs.Fields.{field_at};
ghost use Rattle.file_fields.specs.Stretches.{fields_of};
ghost use Rattle.file_names.specs.Below.{all_below};
ghost use Rattle.file_names.specs.Numbered.{NumberedBy};

use file_fields::file::File;
use file_index::maps::MapNames;
use file_words::Words;
use file_words::places::{Sought, sought_at};
use paper::element;
use text_lines::NO_LINE;

// Every word is below the limit.
fn all_below(words: &[u16], limit: usize) -> bool
    ensures { result ≡ all_below limit words.now }
{
    for word in words {
        if limit <= (*word as usize) {
            return false;
        }
    }
    true
}

// Field i names what its map lacks: the number of such a name is not below the map's count. An element that no map has is numbered as a domain.
fn is_unknown(file: File, maps: MapNames, words: Words, i: usize) -> bool
    requires i_in_bounds { i < length file.fields.now }
    requires numbered { NumberedBy file maps words }
    ensures { result ≡ names_unknown (fields_of file.entry) (field_at file.entry.text.now file.entry.fields.now i) }
{
    let field = file.fields[i];
    let subjects = maps.subjects.count;
    match sought_at(field.place()) {
        Sought::Subject => subjects <= maps.subjects.number_in(file.text, file.value(field)),
        Sought::Subjects => !all_below(words.of(i), subjects),
        Sought::Objects => !all_below(words.of(i), maps.objects.count),
        Sought::Elements => !all_below(words.of(i), (element::FIRST_DOMAIN as usize) + subjects),
        Sought::Nothing => false,
    }
}

// 8 over the whole file.
pub fn unknown_line(file: File, maps: MapNames, words: Words) -> usize
    requires { NumberedBy file maps words }
    ensures { result ≡ unknown_name (fields_of file.entry) }
{
    for i in 0..file.fields.len() {
        if is_unknown(file, maps, words, i) {
            return file.fields[i].line();
        }
    }
    NO_LINE
}
