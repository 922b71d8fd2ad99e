// The cells, and the better of two stacks that are chains of them.
ghost use Rattle.std.specs.Prelude.{◌≡◌, [], ◌∷◌, cond, ℕ, min, ◌+◌, ◌≤◌, ◌<◌, replicate, set};
ghost use Rattle.paper.specs.Limits.{witness_words};
ghost use Rattle.overlap_cells.specs.Best.{lower_or_same, comes_first, better, in_front};
ghost use Rattle.overlap_cells.specs.Places.{cells};
ghost use Rattle.overlap_cells.specs.Cells.{cell_at, chain_stack, cell_stack, Short, Onward};

use crate::Chain;
use paper::limit;

// The places in a pattern: of its elements, and its end. Cell i * PLACES + j is of the patterns from places i and j on.
pub const PLACES: usize = limit::ELEMENTS + 1;

// The cells from FILLED on have no stack: each before them is made of cells up to LAST.
pub const FILLED: usize = limit::ELEMENTS * PLACES;

pub const LAST: usize = FILLED + PLACES;

pub const CELLS: usize = LAST + 1;

// The stack that each cell holds.
#[derive(Drop)]
pub struct Cells {
    pub chains: [Chain; CELLS],
    pub ghost short: { Short chains },
    pub ghost onward: { Onward chains },
}

impl Cells {
    pub fn new() -> Self
        ensures { (c : ℕ) → cell_stack result.chains c ≡ [] }
    {
        Cells {
            chains: [Chain::NONE; CELLS],
        }
    }

    pub fn at(&self, c: usize) -> Chain
        requires { c < cells }
        ensures value { result ≡ cell_at self.now.chains c }
        ensures onward { c ≤ result.rest }
    {
        self.chains[c]
    }

    pub fn put(&mut self, k: usize, chain: Chain)
        requires k_lt_cells { k < cells }
        requires short { chain.frames ≤ witness_words }
        requires onward { k ≤ chain.rest }
        ensures there { cell_at self.new.chains k ≡ chain }
        ensures others { (c : ℕ) → (c ≡ k → ⊥) → cell_at self.new.chains c ≡ cell_at self.old.chains c }
    {
        self.chains[k] = chain;
    }

    // Of two stacks of as many frames: the first is not above the second.
    fn lower_or_same(&self, x: Chain, y: Chain) -> bool
        requires { x.frames ≡ y.frames }
        ensures { result ≡ lower_or_same (chain_stack self.now.chains x) (chain_stack self.now.chains y) }
    {
        let mut a = x;
        let mut b = y;
        for _ in 0..x.frames {
            if a.base != b.base {
                return a.base < b.base;
            }
            a = self.at(a.rest as usize);
            b = self.at(b.rest as usize);
        }
        true
    }

    // Of two stacks with frames: the first has fewer, or as many and is not above the second.
    fn comes_first(&self, x: Chain, y: Chain) -> bool
        ensures { result ≡ comes_first (chain_stack self.now.chains x) (chain_stack self.now.chains y) }
    {
        x.frames < y.frames || x.frames == y.frames && self.lower_or_same(x, y)
    }

    pub fn better_of(&self, x: Chain, y: Chain) -> Chain
        ensures result_value { chain_stack self.now.chains result
            ≡ better comes_first (chain_stack self.now.chains x) (chain_stack self.now.chains y) }
        ensures onward { min x.rest y.rest ≤ result.rest }
    {
        if x.frames == 0 {
            return y;
        }
        if y.frames == 0 || self.comes_first(x, y) {
            return x;
        }
        y
    }

    // Function f before the stack of cell c, or alone.
    pub fn in_front(&self, alone: bool, f: u16, c: usize) -> Chain
        requires { c < cells }
        ensures result_value { chain_stack self.now.chains result ≡ in_front alone f (cell_stack self.now.chains c) }
        ensures onward { c ≤ result.rest }
    {
        if alone {
            return Chain::alone(f);
        }
        let frames = self.at(c).frames;
        if frames == 0 {
            return Chain::NONE;
        }
        Chain {
            frames: frames + 1,
            base: f,
            rest: c as u32,
        }
    }
}
