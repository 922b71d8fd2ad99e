// The list of a text's fields, got by one walk over the text: every rule, the table and the filled text are made from it.
#![tactic(auto)]

pub mod file;
pub mod stretch;
pub mod values;

ghost use Rattle.std.specs.Prelude.{◌≡◌, ◌≤◌, eqb, length};
ghost use Rattle.paper.specs.Common.{any_of};
ghost use Rattle.paper.specs.Limits.{text_bytes};
ghost use Rattle.paper.specs.Page.{page_of};
ghost use Rattle.paper.specs.Entries.{call_contexts};
ghost use Rattle.paper.specs.Rules.{earlier};
ghost use Rattle.paper.specs.Promises.{text_page};
ghost use Rattle.file_fields.specs.Listed.{most_fields, found_in, Holds};

use crate::file::FieldAt;
use paper::{Fault, limit, refusal};
use text_keys::rows;

// Room for the fields of any text that is not too long.
pub const MOST_FIELDS: usize = 8192;

// The fields of the page, or the first line with 4, 9 or 5.
fn list_page(t: &[u8], list: &mut [FieldAt]) -> Result<usize, Fault>
    requires t_len_bound { length t.now ≤ text_bytes }
    requires most_fields_in_bounds { most_fields ≤ length list.old }
    ensures { (found_in t.now list.new result ≡ page_of t.now) × Holds t.now list.new result }
{
    let mut c = text_page::start();
    let mut n: usize = 0;
    while let Some(field) = text_page::next_field(t, c)? {
        list[n] = FieldAt {
            place: field.place as u32,
            line: field.line as u32,
            start: field.start as u32,
            end: field.end as u32,
        };
        n += 1;
        c = field.behind();
    }
    Ok(n)
}

// How many fields of a text the list got, or the refusal of the text: 2, then 3, then 4, 9 and 5.
pub fn list_fields(t: &[u8], list: &mut [FieldAt]) -> Result<usize, Fault>
    requires { most_fields ≤ length list.old }
    ensures { (found_in t.now list.new result ≡ text_page t.now) × Holds t.now list.new result }
{
    if limit::TEXT_BYTES < t.len() {
        return Err(Fault {
            number: refusal::TEXT_TOO_LONG,
            line: text_lines::NO_LINE,
        });
    }
    if let Some(line) = text_lines::bad_byte_line(t) {
        return Err(Fault {
            number: refusal::BAD_BYTE,
            line,
        });
    }
    list_page(t, list)
}

// The smaller of two lines, where there are two.
pub fn earlier(a: usize, b: usize) -> usize
    ensures { result ≡ earlier a b }
{
    if a == text_lines::NO_LINE {
        return b;
    }
    if b == text_lines::NO_LINE {
        return a;
    }
    if a < b {
        return a;
    }
    b
}

// One of the three places of a pattern.
pub fn is_call_context(place: usize) -> bool
    ensures { result ≡ any_of (eqb place) call_contexts }
{
    (place == rows::EXECUTION_CALL_CONTEXT)
        | ((place == rows::READ_CALL_CONTEXT) | (place == rows::WRITE_CALL_CONTEXT))
}
