// A stack as a chain of cells.
ghost use Rattle.std.specs.Prelude.{◌≡◌, ◌<◌};
ghost use Rattle.overlap_cells.specs.Places.{last_cell, cells};

use crate::cells::LAST;

// A stack of so many frames: its base, and the cell at which the rest of it begins. `rest` has 32 bits so that a chain has eight bytes:
// many are made and copied, and each is then one load and one store.
#[derive(Clone, Copy)]
pub struct Chain {
    pub frames: u16,
    pub base: u16,
    pub rest: u32,
    pub ghost inside: { rest < cells },
}

impl Chain {
    pub const NONE: Chain = Chain {
        frames: 0,
        base: 0,
        rest: LAST as u32,
    };

    // Function f alone.
    pub fn alone(f: u16) -> Chain
        ensures frames { result.frames ≡ 1 }
        ensures base { result.base ≡ f }
        ensures rest { result.rest ≡ last_cell }
    {
        Chain {
            frames: 1,
            base: f,
            rest: LAST as u32,
        }
    }
}
