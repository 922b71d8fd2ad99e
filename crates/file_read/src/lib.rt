// The reader: any bytes into any lent table. The list of fields is got by one walk; every rule and the table are made from it.
#![tactic(auto)]

ghost use Rattle.std.specs.Prelude.{◌≡◌, ◌++◌, ◌≤◌, length, take, drop, replicate};
ghost use Rattle.paper.specs.declared.Reading.TheVariants.{Unread};
ghost use Rattle.paper.specs.Limits.{text_bytes, table_words};
ghost use Rattle.paper.specs.Text.{no_line};
ghost use Rattle.paper.specs.Rules.{over_limit, ruled};
ghost use Rattle.paper.specs.Promises.{file_of, reading_of, words_read, read_answer, read_leaves};
ghost use Rattle.file_fields.specs.Listed.{most_fields};
ghost use Rattle.file_fields.specs.Stretches.{fields_of};
ghost use Rattle.file_names.specs.Naming.{SoundFile};
ghost use Rattle.file_read.specs.Readable.{Readable};
ghost use Rattle.file_read.specs.Ruled.{known_ruled, names_ruled};
ghost use Rattle.file_read.specs.Numbered.{Numbered};
ghost use Rattle.file_read.specs.Lent.{Cleared, Left};

use file_entries::{twin_line, unbound_line};
use file_fields::file::{File, NOWHERE};
use file_fields::{MOST_FIELDS, list_fields};
use file_index::maps::MapNames;
use file_index::{MULTIPLIER, layout};
use file_limits::over_limit;
use file_names::unknown::unknown_line;
use file_names::{MEMBERS_SIZE, index_names, maps_of};
use file_table::write_table;
use file_words::{STARTS, WORDS, Words};
use paper::{Reading, limit, refusal};
use text_lines::NO_LINE;

// Room for the domains of one map in an index.
const DOMAINS_SIZE: usize = layout::NAMES_AT + layout::NAME_SIZE * limit::DOMAINS;

fn refused(number: u16, line: usize) -> Reading
    requires { line ≤ text_bytes }
    ensures { result ≡ Unread number line }
{
    Reading::Unread {
        number,
        line: line as u32,
    }
}

// 10 and 11, and then the table, of a file that names nothing unknown. A table that is too short for the words is left as it is.
fn read_known(file: File, maps: MapNames, words: Words, table: &mut [u16]) -> Reading
    requires numbered { Numbered file maps words }
    requires cleared { Cleared table.old }
    ensures value { result ≡ reading_of (known_ruled (fields_of file.entry)) }
    ensures left { Left (known_ruled (fields_of file.entry)) table.old table.new }
{
    let unbound = unbound_line(file);
    if unbound != NO_LINE {
        return refused(refusal::UNBOUND, unbound);
    }
    let twin = twin_line(file);
    if twin != NO_LINE {
        return refused(refusal::SAME_PRINCIPAL, twin);
    }
    if table.len() < limit::TABLE_WORDS {
        return Reading::Accepted;
    }
    write_table(
        file,
        maps.objects.count,
        maps.subjects,
        maps.functions.count,
        words,
        table,
    );
    Reading::Accepted
}

// 8, and then the rules that are left and the table, of a file whose names are numbered.
fn read_named(file: File, maps: MapNames, words: Words, table: &mut [u16]) -> Reading
    requires numbered { Numbered file maps words }
    requires cleared { Cleared table.old }
    ensures value { result ≡ reading_of (names_ruled (fields_of file.entry)) }
    ensures left { Left (names_ruled (fields_of file.entry)) table.old table.new }
{
    let unknown = unknown_line(file, maps, words);
    if unknown != NO_LINE {
        return refused(refusal::UNKNOWN, unknown);
    }
    read_known(file, maps, words, table)
}

// 7, and then the rules that are left and the table, of a file within the limits. A function of its own, so that its arrays are cleared once,
// and only where 6 has not refused.
#[inline(never)]
fn read_within(file: File, table: &mut [u16]) -> Reading
    requires sound { SoundFile file }
    requires few { length file.fields.now ≤ most_fields }
    requires readable { Readable (fields_of file) }
    requires within { over_limit (fields_of file) ≡ no_line }
    requires cleared { Cleared table.old }
    ensures value { result ≡ reading_of (ruled (fields_of file.entry)) }
    ensures left { Left (ruled (fields_of file.entry)) table.old table.new }
{
    let mut objects_ix = [0usize; DOMAINS_SIZE];
    let mut subjects_ix = [0usize; DOMAINS_SIZE];
    let mut functions_ix = [0usize; MEMBERS_SIZE];
    objects_ix[layout::MULTIPLIER_AT] = MULTIPLIER;
    subjects_ix[layout::MULTIPLIER_AT] = MULTIPLIER;
    functions_ix[layout::MULTIPLIER_AT] = MULTIPLIER;
    let mut words = [0u16; WORDS];
    let mut starts = [0usize; STARTS];
    starts[layout::MULTIPLIER_AT] = MULTIPLIER;
    let named = index_names(
        file,
        &mut objects_ix,
        &mut subjects_ix,
        &mut functions_ix,
        &mut words,
        &mut starts,
    );
    if named.twice != NO_LINE {
        return refused(refusal::TWICE, named.twice);
    }
    let maps = maps_of(named, &objects_ix, &subjects_ix, &functions_ix);
    let words = Words {
        words: &words,
        starts: &starts,
    };
    read_named(file, maps, words, table)
}

// The rules over the whole file, and then the table.
fn read_fields(file: File, table: &mut [u16]) -> Reading
    requires sound { SoundFile file }
    requires few { length file.fields.now ≤ most_fields }
    requires readable { Readable (fields_of file) }
    requires cleared { Cleared table.old }
    ensures value { result ≡ reading_of (ruled (fields_of file.entry)) }
    ensures left { Left (ruled (fields_of file.entry)) table.old table.new }
{
    let over = over_limit(file);
    if over != NO_LINE {
        return refused(refusal::COUNT, over);
    }
    read_within(file, table)
}

// The rules over the whole file, and no table.
pub fn rule_fields(file: File) -> Reading
    requires sound { SoundFile file }
    requires few { length file.fields.now ≤ most_fields }
    requires readable { Readable (fields_of file) }
    ensures { result ≡ reading_of (ruled (fields_of file.entry)) }
{
    let mut short = [0u16; 1];
    read_fields(file, &mut short)
}

// A text with a table that has room.
fn read_text(t: &[u8], table: &mut [u16]) -> Reading
    requires table_value { take table_words table.old ≡ replicate table_words 0 }
    requires table_words_in_bounds { table_words ≤ length table.old }
    ensures value { result ≡ reading_of (file_of t.now) }
    ensures table_after { table.new ≡ words_read (file_of t.now) ++ drop table_words table.old }
{
    let mut list = [NOWHERE; MOST_FIELDS];
    match list_fields(t, &mut list) {
        Err(fault) => Reading::Unread {
            number: fault.number,
            line: fault.line as u32,
        },
        Ok(n) => {
            let file = File {
                text: t,
                fields: &list[..n],
            };
            read_fields(file, table)
        }
    }
}

// The reader.
pub fn read(text: &[u8], table: &mut [u16]) -> Reading
    ensures value { result ≡ read_answer text.now table.old }
    ensures table_after { table.new ≡ read_leaves text.now table.old }
{
    if table.len() < limit::TABLE_WORDS {
        return Reading::Unread {
            number: refusal::TABLE_TOO_SHORT,
            line: refusal::NO_LINE,
        };
    }
    table[..limit::TABLE_WORDS].fill(0);
    read_text(text, table)
}
