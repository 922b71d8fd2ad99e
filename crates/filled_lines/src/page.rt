// The bytes lent for the filled text, and how many of them are written.
ghost use Rattle.std.specs.Prelude.{◌≡◌, List};
ghost use Rattle.filled_lines.specs.Pages.{room_for, PagePut, page_laws};

use crate::sink::Sink;

#[derive(Drop)]
pub struct Page<'a> {
    pub out: &'a mut [u8],
    pub at: usize,
}

impl Sink for Page<'_> {
    ghost Fits = { room_for };

    ghost Put = { PagePut };

    ghost laws = { page_laws };

    fn bare_line(&mut self, place: usize) {
        self.at += crate::bare_line(place, &mut self.out[self.at..]);
    }

    fn key_line(&mut self, place: usize, v: &[u8]) {
        self.at += crate::key_line(place, v, &mut self.out[self.at..]);
    }

    fn omitted_keys(&mut self) {
        self.at += crate::omitted_keys(&mut self.out[self.at..]);
    }
}
