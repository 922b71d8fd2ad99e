// What a text names, listed: where each name stands, and what it is the name of. Any bytes, and any words lent to be written. How many words the
// list takes is known before the first of them is written; each writer gets the part of the words behind what was written before it.
#![tactic(auto)]

ghost use Rattle.std.specs.Prelude.{◌≡◌, ◌≤◌, length};
ghost use Rattle.paper.specs.Rules.{ruled};
ghost use Rattle.file_fields.specs.Stretches.{fields_of};
ghost use Rattle.file_fields.specs.Listed.{most_fields};
ghost use Rattle.file_names.specs.Naming.{SoundFile};
ghost use Rattle.file_read.specs.Readable.{Readable};
ghost use Rattle.filled_lines.specs.Wrote.{Wrote};
ghost use Rattle.file_things.specs.Things.{things_of};
ghost use Rattle.file_things.specs.Writable.{AllSmall, Writable};
ghost use Rattle.file_listing.specs.Answer.{listing_of, list_left, words_listed, list_answer, list_leaves};

use file_fields::file::{File, NOWHERE};
use file_fields::{MOST_FIELDS, list_fields};
use file_read::rule_fields;
use file_things::{list_words, put_field};
use paper::Reading;

// How many words the list takes, or the refusal of the text.
#[derive(Clone, Copy)]
pub enum Listing {
    Listed { words: u32 },
    Unlisted { number: u16, line: u32 },
}

// The whole list, one field at a time.
fn put_things(file: File, out: &mut [u32]) -> usize
    requires sound { SoundFile file }
    requires writable { Writable (things_of (fields_of file)) out.old }
    ensures { Wrote (things_of (fields_of file.entry)) out.old out.new result }
{
    let mut end: usize = 0;
    for i in 0..file.fields.len() {
        end += put_field(file, i, &mut out[end..]);
    }
    end
}

// The list of fields that keep the rules, if there is room for it.
fn list_fitting(file: File, out: &mut [u32]) -> Listing
    requires sound { SoundFile file }
    requires few { length file.fields.now ≤ most_fields }
    requires all_small { AllSmall (things_of (fields_of file)) }
    ensures value { result ≡ Listing.Listed (length (things_of (fields_of file.entry))) }
    ensures out_after { out.new ≡ list_left (things_of (fields_of file.entry)) out.old }
{
    let words = list_words(file);
    let listing = Listing::Listed {
        words: words as u32,
    };
    if out.len() < words {
        return listing;
    }
    put_things(file, out);
    listing
}

// The rules, as the reader has them.
fn list_ruled(file: File, out: &mut [u32]) -> Listing
    requires sound { SoundFile file }
    requires few { length file.fields.now ≤ most_fields }
    requires readable { Readable (fields_of file) }
    requires all_small { AllSmall (things_of (fields_of file)) }
    ensures value { result ≡ listing_of (ruled (fields_of file.entry)) }
    ensures out_after { out.new ≡ words_listed (ruled (fields_of file.entry)) out.old }
{
    match rule_fields(file) {
        Reading::Unread { number, line } => Listing::Unlisted { number, line },
        Reading::Accepted => list_fitting(file, out),
    }
}

// The list of what a text names.
pub fn list(text: &[u8], out: &mut [u32]) -> Listing
    ensures value { result ≡ list_answer text.now }
    ensures out_after { out.new ≡ list_leaves text.now out.old }
{
    let mut fields = [NOWHERE; MOST_FIELDS];
    match list_fields(text, &mut fields) {
        Err(fault) => Listing::Unlisted {
            number: fault.number,
            line: fault.line as u32,
        },
        Ok(n) => {
            let file = File {
                text,
                fields: &fields[..n],
            };
            list_ruled(file, out)
        }
    }
}
