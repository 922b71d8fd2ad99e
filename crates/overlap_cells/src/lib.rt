// What a cell of two patterns is made of: their first elements, and stacks as chains of cells, of which the better is told.
#![tactic(auto)]

pub mod cells;
pub mod chain;
pub mod element;
pub mod firsts;
pub mod functions;
pub mod pair;

pub use cells::{CELLS, Cells, FILLED, LAST, PLACES};
pub use chain::Chain;
pub use element::Element;
pub use firsts::Firsts;
pub use functions::{Functions, lowest_functions};
pub use pair::{Pair, only_all_from};
