// 7 and 8: names that stand twice, names that no map has, and the indexes of the maps that names are looked up in.
#![tactic(auto)]

pub mod indexes;
pub mod lists;
pub mod unknown;

ghost use Rattle.std.specs.Prelude.{◌≡◌, [], ◌*◌, ◌<◌, ◌≤◌, length};
ghost use Rattle.paper.specs.Limits.{most_domains, most_members};
ghost use Rattle.paper.specs.Text.{no_line};
ghost use Rattle.paper.specs.Listing.{object_members};
ghost use Rattle.paper.specs.Rules.{first_with, repeated, domain_named, members_named, repeats_in_list, named_twice, over_limit};
ghost use Rattle.file_fields.specs.Fields.{bytes_to, maps_end};
ghost use Rattle.file_fields.specs.Stretches.{fields_of};
ghost use Rattle.file_index.specs.Maps.{Maps};
ghost use Rattle.file_words.specs.Words.{numbers_from, numbers_of, Worded};
ghost use Rattle.file_names.specs.Naming.{SoundFile};
ghost use Rattle.file_names.specs.Mapping.{Fresh, HasRoom, MapsTo, Distinct};

use crate::indexes::{index_domains, index_members};
use crate::lists::lists_line;
use file_fields::earlier;
use file_fields::file::File;
use file_index::maps::MapNames;
use file_index::names::Names;
use file_index::{MULTIPLIER, layout};
use file_words::{Words, look_up};
use paper::limit;
use text_keys::rows;

// Room for so many names in an index.
const DOMAINS_SIZE: usize = layout::NAMES_AT + layout::NAME_SIZE * limit::DOMAINS * 2;

pub const MEMBERS_SIZE: usize = layout::NAMES_AT + layout::NAME_SIZE * limit::MEMBERS;

// How many names each map has, and the line at which one stands twice. Names are counted where one does, too: lists are looked up in any case.
#[derive(Clone, Copy)]
pub struct Named {
    pub objects: usize,
    pub subjects: usize,
    pub functions: usize,
    pub twice: usize,
}

// The line of the first domain name that stands twice, over both maps.
fn domains_line(file: File, end: usize) -> usize
    requires sound { SoundFile file }
    requires in_limits { over_limit (fields_of file) ≡ no_line }
    requires end_value { end ≡ maps_end file.fields.now (length file.fields.now) }
    ensures { result ≡ repeated domain_named [] (fields_of file.entry) }
{
    let mut ix = [0usize; DOMAINS_SIZE];
    ix[layout::MULTIPLIER_AT] = MULTIPLIER;
    let found = index_domains(file, end, rows::OBJECT_NAME, rows::SUBJECT_NAME, &mut ix);
    found.twice
}

// The line of the first object that stands twice. Nothing else is asked of the objects' index.
fn objects_line(file: File, end: usize, ix: &mut [usize]) -> usize
    requires sound { SoundFile file }
    requires in_limits { over_limit (fields_of file) ≡ no_line }
    requires end_value { end ≡ maps_end file.fields.now (length file.fields.now) }
    requires fresh { Fresh file.text.now ix.old most_members }
    ensures value { result ≡ repeated (members_named object_members) [] (fields_of file.entry) }
    ensures ix_len_unchanged { length ix.new ≡ length ix.old }
{
    let found = index_members(file, end, rows::OBJECT_MEMBERS, ix);
    found.twice
}

// The indexes of the maps, and the line of the first function that stands twice. They are whole where no domain stands twice either.
fn index_maps(
    file: File,
    end: usize,
    objects_ix: &mut [usize],
    subjects_ix: &mut [usize],
    functions_ix: &mut [usize],
) -> Named
    requires sound { SoundFile file }
    requires in_limits { over_limit (fields_of file) ≡ no_line }
    requires end_value { end ≡ maps_end file.fields.now (length file.fields.now) }
    requires objects_fresh { Fresh file.text.now objects_ix.old most_domains }
    requires subjects_fresh { Fresh file.text.now subjects_ix.old most_domains }
    requires functions_fresh { Fresh file.text.now functions_ix.old most_members }
    ensures maps_to { MapsTo file.entry.text.now (fields_of file.entry) objects_ix.new subjects_ix.new functions_ix.new result }
    ensures objects_ix_len_unchanged { (length objects_ix.new ≡ length objects_ix.old)
        × (length subjects_ix.new ≡ length subjects_ix.old)
        × (length functions_ix.new ≡ length functions_ix.old) }
{
    let objects = index_domains(file, end, rows::OBJECT_NAME, rows::OBJECT_NAME, objects_ix);
    let subjects = index_domains(
        file,
        end,
        rows::SUBJECT_NAME,
        rows::SUBJECT_NAME,
        subjects_ix,
    );
    let functions = index_members(file, end, rows::SUBJECT_MEMBERS, functions_ix);
    Named {
        objects: objects.names,
        subjects: subjects.names,
        functions: functions.names,
        twice: functions.twice,
    }
}

// The names of the maps, with their indexes.
pub fn maps_of<'a>(
    named: Named,
    objects_ix: &'a [usize],
    subjects_ix: &'a [usize],
    functions_ix: &'a [usize],
) -> MapNames<'a>
    requires objects { HasRoom objects_ix.now named.objects most_domains }
    requires subjects { HasRoom subjects_ix.now named.subjects most_domains }
    requires functions { HasRoom functions_ix.now named.functions most_members }
    ensures objects { (result.objects.index.now ≡ objects_ix.now) × (result.objects.count ≡ named.objects) }
    ensures subjects { (result.subjects.index.now ≡ subjects_ix.now) × (result.subjects.count ≡ named.subjects) }
    ensures functions { (result.functions.index.now ≡ functions_ix.now) × (result.functions.count ≡ named.functions) }
{
    let objects = Names {
        index: objects_ix,
        count: named.objects,
    };
    let subjects = Names {
        index: subjects_ix,
        count: named.subjects,
    };
    let functions = Names {
        index: functions_ix,
        count: named.functions,
    };
    MapNames {
        objects,
        subjects,
        functions,
    }
}

// The words of the names that entries have, and the line of the first list that has one twice.
fn word_lists(file: File, maps: MapNames, words: &mut [u16], starts: &mut [usize]) -> usize
    requires sound { SoundFile file }
    requires room { (bytes_to file.fields.now (length file.fields.now) ≤ 2 * length words.old) × (length file.fields.now < length starts.old) }
    ensures value { result ≡ first_with repeats_in_list (fields_of file.entry) }
    ensures worded { Worded (numbers_from file.entry.text.now maps.entry) file.entry.text.now file.entry.fields.now (length file.entry.fields.now) words.new starts.new }
{
    look_up(file, maps, words, starts);
    lists_line(file, Words { words, starts })
}

// 7 over the whole file, and the indexes of its maps; where nothing stands twice, the words of its names too. Before there are words, the
// objects' index stands where they will start: so one array less has to be cleared.
pub fn index_names(
    file: File,
    objects_ix: &mut [usize],
    subjects_ix: &mut [usize],
    functions_ix: &mut [usize],
    words: &mut [u16],
    starts: &mut [usize],
) -> Named
    requires sound { SoundFile file }
    requires room { (bytes_to file.fields.now (length file.fields.now) ≤ 2 * length words.old) × (length file.fields.now < length starts.old) }
    requires in_limits { over_limit (fields_of file) ≡ no_line }
    requires objects_fresh { Fresh file.text.now objects_ix.old most_domains }
    requires subjects_fresh { Fresh file.text.now subjects_ix.old most_domains }
    requires functions_fresh { Fresh file.text.now functions_ix.old most_members }
    requires starts_fresh { Fresh file.text.now starts.old most_members }
    ensures twice_value { result.twice ≡ named_twice (fields_of file.entry) }
    ensures maps { result.twice ≡ 0 → Maps file.entry.text.now (fields_of file.entry) objects_ix.new
        subjects_ix.new functions_ix.new result.objects result.subjects result.functions }
    ensures distinct { result.twice ≡ 0 → Distinct (fields_of file.entry) }
    ensures worded { result.twice ≡ 0 → Worded (numbers_of (fields_of file.entry)) file.entry.text.now file.entry.fields.now (length file.entry.fields.now)
        words.new starts.new }
{
    let end = file.maps().to;
    let domains = domains_line(file, end);
    let objects = objects_line(file, end, starts);
    let named = index_maps(file, end, objects_ix, subjects_ix, functions_ix);
    let maps = maps_of(named, objects_ix, subjects_ix, functions_ix);
    let lists = word_lists(file, maps, words, starts);
    Named {
        objects: named.objects,
        subjects: named.subjects,
        functions: named.functions,
        twice: earlier(domains, earlier(objects, earlier(named.twice, lists))),
    }
}
