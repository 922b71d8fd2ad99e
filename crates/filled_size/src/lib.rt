// How long the filled text is: its lines are measured, and none is written.
#![tactic(auto)]

ghost use Rattle.std.specs.Prelude.{◌≡◌, ◌≤◌, length};
ghost use Rattle.paper.specs.Limits.{text_bytes};
ghost use Rattle.paper.specs.Filled.{filled_text};
ghost use Rattle.file_fields.specs.Listed.{most_fields};
ghost use Rattle.file_fields.specs.Stretches.{fields_of};
ghost use Rattle.filled_size.specs.Measured.{countable, Measured, measure_laws};

use file_fields::file::File;
use filled_lines::sink::Sink;
use filled_text::put_filled;
use text_keys::{key_size, rows};

// How long the keys of a context are where each is omitted.
const OMITTED_KEYS: usize = 77;

// How long the lines are that were put.
#[derive(Clone, Copy)]
struct Measure {
    size: usize,
}

impl Sink for Measure {
    ghost Fits = { countable };

    ghost Put = { Measured };

    ghost laws = { measure_laws };

    fn bare_line(&mut self, place: usize) {
        let key = rows::row_at(place).key;
        self.size += key_size(key) + 1;
    }

    fn key_line(&mut self, place: usize, v: &[u8]) {
        let key = rows::row_at(place).key;
        self.size += key_size(key) + v.len() + 2;
    }

    fn omitted_keys(&mut self) {
        self.size += OMITTED_KEYS;
    }
}

// The whole filled text.
pub fn filled_size(file: File) -> usize
    requires { (length file.text.now ≤ text_bytes) × (length file.fields.now ≤ most_fields) }
    ensures { result ≡ length (filled_text (fields_of file.entry)) }
{
    let mut measure = Measure { size: 0 };
    put_filled(file, &mut measure);
    measure.size
}
