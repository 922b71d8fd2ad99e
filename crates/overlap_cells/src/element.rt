// What an element of a pattern is, by its word in the table.
ghost use Rattle.std.specs.Prelude.{◌≡◌};
ghost use Rattle.overlap_cells.specs.Element.{IsOf};

use paper::element;

#[derive(Clone, Copy, PartialEq, Eq)]
pub enum Element {
    All,
    Function(u16),
    Domain(u16),
}

impl From<u16> for Element {
    ghost from_gives = { IsOf };

    fn from(word: u16) -> Self {
        if word == element::ALL {
            Element::All
        } else if word < element::FIRST_DOMAIN {
            Element::Function(word - 1)
        } else {
            Element::Domain(word - element::FIRST_DOMAIN)
        }
    }
}
