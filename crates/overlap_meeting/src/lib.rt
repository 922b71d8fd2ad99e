// The best stack that two patterns both match with its top in a domain: of the shortest the lowest function numbers from the base up.
#![tactic(auto)]

ghost use Rattle.std.specs.Prelude.{ℕ, ◌≡◌, true, [], ◌++◌, map, ◌≤◌, ◌<◌, length, drop};
ghost use Rattle.paper.specs.Limits.{most_elements, witness_words};
ghost use Rattle.paper.specs.Table.{element_in};
ghost use Rattle.paper.specs.Overlap.{witness_left};
ghost use Rattle.overlap_cells.specs.Element.{meant};
ghost use Rattle.overlap_cells.specs.Best.{best_stack};
ghost use Rattle.overlap_cells.specs.Places.{filled, last_cell};
ghost use Rattle.overlap_cells.specs.Cells.{chain_stack, cell_stack, from_cells, Filled, Differ, NeverMeet};
ghost use Rattle.overlap_meeting.specs.Written.{Fits, Written};

use overlap_cells::cells::{FILLED, PLACES};
use overlap_cells::{Cells, Chain, Element, Firsts, Functions, Pair};
use paper::limit;

// The best stack of a cell k with these first elements, from those of the cells after it.
fn best_of_cell(cells: &Cells, k: usize, firsts: Firsts, lowest: Chain) -> Chain
    requires { (k < filled) × (lowest.rest ≡ last_cell) }
    ensures result_value { chain_stack cells.now.chains result
        ≡ from_cells firsts (chain_stack cells.now.chains lowest) cells.now.chains k }
    ensures ahead { k < result.rest }
{
    match firsts {
        Firsts::BothAll { alone: false } => cells.better_of(cells.at(k + PLACES), cells.at(k + 1)),
        Firsts::BothAll { alone: true } => {
            let longer = cells.better_of(cells.at(k + PLACES), cells.at(k + 1));
            cells.better_of(longer, lowest)
        }
        // `all` drops out, or takes the function and is kept.
        Firsts::OneAll { function, alone } => {
            let kept = cells.in_front(alone, function, k + 1);
            cells.better_of(cells.at(k + PLACES), kept)
        }
        Firsts::OtherAll { function, alone } => {
            let kept = cells.in_front(alone, function, k + PLACES);
            cells.better_of(cells.at(k + 1), kept)
        }
        Firsts::Same { function, alone } => cells.in_front(alone, function, k + PLACES + 1),
        Firsts::Apart => Chain::NONE,
    }
}

// Every cell of two elements, the last first.
fn fill_cells(pair: &Pair, cells: &mut Cells)
    requires p_fits { length pair.now.p.now ≤ most_elements }
    requires q_fits { length pair.now.q.now ≤ most_elements }
    requires empty { (c : ℕ) → cell_stack cells.old.chains c ≡ [] }
    ensures { Filled pair.now.functions.now.domains.now pair.now.domain pair.now.p.now pair.now.q.now cells.new.chains 0 }
{
    let lowest = pair.lowest_alone();
    for k in (0..FILLED).rev() {
        let best = match pair.firsts(k) {
            Firsts::Apart => Chain::NONE,
            firsts => best_of_cell(cells, k, firsts, lowest),
        };
        cells.put(k, best);
    }
}

// Two elements that are not `all`, and that no frame meets both.
fn differ(functions: &Functions, a: Element, b: Element) -> bool
    ensures { result ≡ true → Differ functions.now.domains.now (meant a) (meant b) }
{
    match (a, b) {
        (Element::All, _) | (_, Element::All) => false,
        _ => functions.common_frame(a, b).is_none(),
    }
}

// The patterns begin or end with two elements that differ, so that no stack matches both: a quick test, before the cells are filled.
fn ends_differ(functions: &Functions, p: &[u16], q: &[u16]) -> bool
    ensures { result ≡ true → NeverMeet functions.now.domains.now p.now q.now }
{
    let (Some(a), Some(b), Some(c), Some(d)) = (p.first(), q.first(), p.last(), q.last()) else {
        return false;
    };
    differ(functions, Element::from(*a), Element::from(*b))
        || differ(functions, Element::from(*c), Element::from(*d))
}

// The frames of a stack to the first words.
fn write_stack(cells: &Cells, stack: Chain, witness: &mut [u16])
    requires { stack.frames ≤ length witness.old }
    ensures { witness.new ≡ chain_stack cells.now.chains stack ++ drop stack.frames witness.old }
{
    let mut left = stack;
    for word in &mut witness[..stack.frames as usize] {
        *word = left.base;
        left = cells.at(left.rest as usize);
    }
}

// Zeros to the witness.
pub fn clear_witness(witness: &mut [u16])
    requires { witness_words ≤ length witness.old }
    ensures { witness.new ≡ witness_left [] witness.old }
{
    witness[..limit::WITNESS_WORDS].fill(0);
}

// The best stack by the cells. A function of its own, since room for cells costs more than the quick test of the ends.
#[inline(never)]
fn write_from_cells(
    functions: &Functions,
    domain: u16,
    p: &[u16],
    q: &[u16],
    witness: &mut [u16],
) -> Option<usize>
    requires { Fits p.now q.now witness.old }
    ensures { Written (best_stack functions.now.domains.now domain (map element_in p.now) (map element_in q.now)) witness.old witness.new result }
{
    clear_witness(witness);
    let pair = Pair::new(functions, domain, p, q);
    let mut cells = Cells::new();
    fill_cells(&pair, &mut cells);
    let best = cells.at(0);
    write_stack(&cells, best, witness);
    (0 < best.frames).then_some(best.frames as usize)
}

// The best stack of two patterns to the witness, and how many frames it has, where there is one.
pub fn write_best_stack(
    functions: &Functions,
    domain: u16,
    p: &[u16],
    q: &[u16],
    witness: &mut [u16],
) -> Option<usize>
    requires { Fits p.now q.now witness.old }
    ensures { Written (best_stack functions.now.domains.now domain (map element_in p.now) (map element_in q.now)) witness.old witness.new result }
{
    if ends_differ(functions, p, q) {
        clear_witness(witness);
        return None;
    }
    write_from_cells(functions, domain, p, q, witness)
}
