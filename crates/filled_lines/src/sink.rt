// What takes the lines of the filled text, one behind the other: they are written, or measured.
ghost use Rattle.std.specs.Prelude.{◌≡◌, ℕ, List};
ghost use Rattle.paper.specs.Filled.{key_line, bare_line};
ghost use Rattle.filled_lines.specs.Omitted.{omitted_keys};
ghost use Rattle.filled_lines.specs.Sinks.{SinkLaws};

pub trait Sink {
    // There is room for a text.
    ghost Fits: { Self → List ℕ → Type 0 };

    // A text was put.
    ghost Put: { Self → List ℕ → Self → Type 0 };

    fn bare_line(&mut self, place: usize)
        requires { Fits self.old (bare_line place) }
        ensures { Put self.old (bare_line place) self.new };

    fn key_line(&mut self, place: usize, v: &[u8])
        requires { Fits self.old (key_line place v.now) }
        ensures { Put self.old (key_line place v.now) self.new };

    // The keys of a context that has none of them.
    fn omitted_keys(&mut self)
        requires { Fits self.old omitted_keys }
        ensures { Put self.old omitted_keys self.new };

    ghost laws: { SinkLaws Fits Put };
}
