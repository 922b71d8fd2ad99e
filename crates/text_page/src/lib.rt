// The page: the walk from field to field, and what a text is refused with up to its page.
#![tactic(auto)]

pub mod step;

ghost use Rattle.std.specs.Prelude.{◌≡◌, ◌+◌, ◌≤◌, length};
ghost use Rattle.paper.specs.Limits.{text_bytes};
ghost use Rattle.paper.specs.Page.{at_end, page_of};
ghost use Rattle.paper.specs.Promises.{text_page, reading_of};
ghost use Rattle.text_page.specs.Steps.{state_of};
ghost use Rattle.text_page.specs.Walk.{at_start, cursor_behind, next_left, last_next, page_left, page_next, refusal_of, Within};

use crate::step::State;
use paper::{Fault, Reading, limit, refusal};
use text_keys::rows;

// Where the walk stands: the place of a byte, the line that begins there, and the state after the lines before it.
#[derive(Clone, Copy)]
pub struct Cursor {
    pub at: usize,
    pub line: usize,
    pub state: State,
}

// A field of the page, with its value between `start` and `end`, and where the line behind it begins. `bare` stands between the two:
// numbers that are written one by one, and then read as one of sixteen bytes, have to be waited for.
#[derive(Clone, Copy)]
pub struct Field {
    pub line: usize,
    pub place: usize,
    pub start: usize,
    pub bare: bool,
    pub end: usize,
    pub next: usize,
}

impl Field {
    // The cursor behind it.
    pub fn behind(self) -> Cursor
        requires { self.line ≤ text_bytes }
        ensures { result ≡ cursor_behind self.line self.place self.bare self.next }
    {
        Cursor {
            at: self.next,
            line: self.line + 1,
            state: State {
                place: self.place,
                bare: self.bare,
                line: self.line,
            },
        }
    }
}

pub fn start() -> Cursor
    ensures { result ≡ at_start }
{
    Cursor {
        at: 0,
        line: 1,
        state: State {
            place: rows::NOWHERE,
            bare: false,
            line: text_lines::NO_LINE,
        },
    }
}

// After the last line no field is left: n is one past it.
fn at_end(st: State, n: usize) -> Result<Option<Field>, Fault>
    ensures { result ≡ last_next (at_end (state_of st) n) }
{
    step::above_is_full(st, false)?;
    if rows::row_at(st.place).last {
        return Ok(None);
    }
    Err(Fault {
        number: refusal::LAYOUT,
        line: n,
    })
}

// The walk's next step: it passes over skipped lines.
pub fn next_field(t: &[u8], c: Cursor) -> Result<Option<Field>, Fault>
    requires { c.line ≤ c.at + 1 }
    ensures value { result ≡ next_left t.now c }
    ensures c_value { (page_left t.now c ≡ page_next t.now result) × Within t.now c.at result }
{
    let st = c.state;
    let mut at = c.at;
    let mut line = c.line;
    while at < t.len() {
        let l = text_lines::line_at(t, at);
        if let Some(keyed) = step::line_step(st, line, &t[at..l.end], l.ended)? {
            return Ok(Some(Field {
                line,
                place: keyed.place,
                start: at + keyed.start,
                bare: keyed.bare,
                end: l.end,
                next: l.next,
            }));
        }
        at = l.next;
        line += 1;
    }
    at_end(st, line)
}

// The first line with 4, 9 or 5.
fn page_fault(t: &[u8]) -> Result<(), Fault>
    requires { length t.now ≤ text_bytes }
    ensures { result ≡ refusal_of (page_of t.now) }
{
    let mut c = start();
    while let Some(field) = next_field(t, c)? {
        c = field.behind();
    }
    Ok(())
}

// What the reader refuses a text with before it looks at counts and names: 2, then 3, then 4, 9 and 5.
fn text_fault(t: &[u8]) -> Result<(), Fault>
    ensures { result ≡ refusal_of (text_page t.now) }
{
    if limit::TEXT_BYTES < t.len() {
        return Err(Fault {
            number: refusal::TEXT_TOO_LONG,
            line: text_lines::NO_LINE,
        });
    }
    if let Some(line) = text_lines::bad_byte_line(t) {
        return Err(Fault {
            number: refusal::BAD_BYTE,
            line,
        });
    }
    page_fault(t)
}

// What the reader says of a text before it looks at counts and names.
pub fn text_reading(t: &[u8]) -> Reading
    ensures { result ≡ reading_of (text_page t.now) }
{
    match text_fault(t) {
        Ok(()) => Reading::Accepted,
        Err(refused) => Reading::Unread {
            number: refused.number,
            line: refused.line as u32,
        },
    }
}
