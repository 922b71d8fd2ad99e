// A name's number, by the list of what a text names. Any bytes and any words will do.
#![tactic(auto)]

ghost use Rattle.std.specs.Prelude.{◌≡◌, take, drop, get_or};
ghost use Rattle.paper.specs.Common.{same};
ghost use Rattle.file_find.specs.Number.{number_of};

use file_things::THING_SIZE;

// In a thing.
const KIND_AT: usize = 0;

const START_AT: usize = 2;

const SIZE_AT: usize = 3;

// A thing has this name.
fn has_name(text: &[u8], thing: &[u32; THING_SIZE], name: &[u8]) -> bool
    ensures { result ≡ same (take (get_or thing.now 3 0) (drop (get_or thing.now 2 0) text.now)) name.now }
{
    let start = thing[START_AT] as usize;
    let end = start + thing[SIZE_AT] as usize;
    text_bytes::same(text_bytes::part(text, start, end), name)
}

// The number of the first thing of a kind with this name; where there is none, how many of the kind there are: a number that is not below their count.
pub fn find(text: &[u8], list: &[u32], kind: u32, name: &[u8]) -> usize
    ensures { result ≡ number_of text.now list.now kind name.now }
{
    let (things, _) = list.as_chunks::<THING_SIZE>();
    let mut number: usize = 0;
    for thing in things {
        if thing[KIND_AT] == kind && has_name(text, thing, name) {
            return number;
        }
        number += usize::from(thing[KIND_AT] == kind);
    }
    number
}
