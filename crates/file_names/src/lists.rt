// 7 for lists in an entry: a name that stands in one list twice.
ghost use Rattle.std.specs.Prelude.{◌≡◌, true, false, ◌+◌, ◌*◌, ◌<◌, ◌≤◌, length, replicate};
ghost use Rattle.paper.specs.Limits.{text_bytes};
ghost use Rattle.paper.specs.Table.{set_size};
ghost use Rattle.paper.specs.Rules.{first_with, repeats_in_list};
ghost use Rattle.file_fields.specs.Fields.{field_at, well_spaced};
ghost use Rattle.file_fields.specs.Stretches.{fields_of};
ghost use Rattle.file_words.specs.Words.{WordedSomehow};
ghost use Rattle.file_names.specs.Naming.{SoundFile};
ghost use Rattle.file_names.specs.Separate.{separate, is_listed, list_separate, lists_separate};

use file_fields::file::File;
use file_fields::values::inside;
use file_words::Words;
use file_words::places::{Sought, sought_at};
use paper::{Operation, limit};
use table::layout;
use text_lines::NO_LINE;

// The words are numbers of domains, and no two are the same.
fn distinct(words: &[u16]) -> bool
    ensures { result ≡ separate (replicate set_size 0) words.now }
{
    let mut seen = [0u16; layout::SET_SIZE];
    for word in words {
        let k = *word as usize;
        if limit::DOMAINS <= k {
            return false;
        }
        if Operation::contains(&seen, k) {
            return false;
        }
        Operation::insert(&mut seen, k);
    }
    true
}

// A list of domains stands there.
fn is_listed(sought: Sought) -> bool
    ensures { result ≡ is_listed sought }
{
    match sought {
        Sought::Subjects => true,
        Sought::Objects => true,
        Sought::Subject => false,
        Sought::Elements => false,
        Sought::Nothing => false,
    }
}

// The words of field i, where it is a list of domains, are numbers of domains, and no two are the same.
fn list_distinct(file: File, words: Words, i: usize) -> bool
    requires i_in_bounds { i < length file.fields.now }
    requires starts_in_bounds { i + 1 < length words.starts.now }
    ensures { result ≡ list_separate file.entry.fields.now words.entry.words.now words.entry.starts.now i }
{
    if !is_listed(sought_at(file.fields[i].place())) {
        return true;
    }
    distinct(words.of(i))
}

// In every list of domains the words are numbers of domains, and no two are the same: most files are told so, quickly.
fn lists_distinct(file: File, words: Words) -> bool
    requires { length file.fields.now < length words.starts.now }
    ensures { result ≡ lists_separate file.entry.fields.now words.entry.words.now words.entry.starts.now 0 (length file.entry.fields.now) }
{
    for i in 0..file.fields.len() {
        if !list_distinct(file, words, i) {
            return false;
        }
    }
    true
}

// A name stands in the list of field i twice. Where two words are the same, or one is no domain's, the names themselves tell.
fn has_twice(file: File, words: Words, i: usize) -> bool
    requires i_in_bounds { i < length file.fields.now }
    requires small { length file.text.now ≤ text_bytes }
    requires spaced { well_spaced (field_at file.text.now file.fields.now i) ≡ true }
    requires worded_somehow { WordedSomehow file.text.now file.fields.now (length file.fields.now) words.words.now words.starts.now }
    ensures { result ≡ repeats_in_list (field_at file.entry.text.now file.entry.fields.now i) }
{
    if list_distinct(file, words, i) {
        return false;
    }
    text_repeats::names_twice(inside(file.value(file.fields[i])))
}

// The line of the first list that has a name twice.
pub fn lists_line(file: File, words: Words) -> usize
    requires sound { SoundFile file }
    requires worded_somehow { WordedSomehow file.text.now file.fields.now (length file.fields.now) words.words.now words.starts.now }
    ensures { result ≡ first_with repeats_in_list (fields_of file.entry) }
{
    if lists_distinct(file, words) {
        return NO_LINE;
    }
    for i in 0..file.fields.len() {
        if has_twice(file, words, i) {
            return file.fields[i].line();
        }
    }
    NO_LINE
}
