// The filler: any bytes, and any bytes lent to be written. The reader's rules come first; the size is known before the first byte is written.
#![tactic(auto)]

ghost use Rattle.std.specs.Prelude.{◌≡◌, ◌*◌, ◌≤◌, length};
ghost use Rattle.paper.specs.Limits.{text_bytes};
ghost use Rattle.paper.specs.Rules.{ruled};
ghost use Rattle.paper.specs.Filled.{filled_text};
ghost use Rattle.paper.specs.Promises.{written_in, filling_of, text_filled, output_left, fill_answer, fill_leaves};
ghost use Rattle.file_fields.specs.Listed.{most_fields};
ghost use Rattle.file_fields.specs.Stretches.{fields_of};
ghost use Rattle.file_names.specs.Naming.{SoundFile};
ghost use Rattle.file_read.specs.Readable.{Readable};

use file_fields::file::{File, NOWHERE};
use file_fields::{MOST_FIELDS, list_fields};
use file_read::rule_fields;
use filled_size::filled_size;
use filled_text::write_filled;
use paper::{Filling, Reading, limit, refusal};

// The filled text of a file that keeps the rules, if it may be so long and there is room for it.
fn write_fitting(file: File, out: &mut [u8]) -> Filling
    requires { (length file.text.now ≤ text_bytes) × (length file.fields.now ≤ most_fields) }
    ensures value { result ≡ written_in (length out.old) (length (filled_text (fields_of file.entry))) }
    ensures out_after { out.new ≡ output_left (filled_text (fields_of file.entry)) out.old result }
{
    let size = filled_size(file);
    if limit::TEXT_BYTES < size {
        return Filling::Unfilled {
            number: refusal::FILLED_TOO_LONG,
            line: refusal::NO_LINE,
        };
    }
    if out.len() < size {
        return Filling::Unfilled {
            number: refusal::OUTPUT_TOO_SHORT,
            line: refusal::NO_LINE,
        };
    }
    write_filled(file, out);
    Filling::Written { size: size as u32 }
}

// The rules, as the reader has them.
fn fill_fields(file: File, out: &mut [u8]) -> Filling
    requires sound { SoundFile file }
    requires few { length file.fields.now ≤ most_fields }
    requires readable { Readable (fields_of file) }
    ensures value { result ≡ filling_of (length out.old) (ruled (fields_of file.entry)) }
    ensures out_after { out.new ≡ output_left (text_filled (ruled (fields_of file.entry))) out.old result }
{
    match rule_fields(file) {
        Reading::Unread { number, line } => Filling::Unfilled { number, line },
        Reading::Accepted => write_fitting(file, out),
    }
}

// The filler.
pub fn fill(text: &[u8], out: &mut [u8]) -> Filling
    ensures value { result ≡ fill_answer text.now out.old }
    ensures out_after { out.new ≡ fill_leaves text.now out.old }
{
    let mut list = [NOWHERE; MOST_FIELDS];
    match list_fields(text, &mut list) {
        Err(fault) => Filling::Unfilled {
            number: fault.number,
            line: fault.line as u32,
        },
        Ok(n) => {
            let file = File {
                text,
                fields: &list[..n],
            };
            fill_fields(file, out)
        }
    }
}
