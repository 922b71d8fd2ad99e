// Two patterns, and how the first elements of a cell are told.
ghost use Rattle.std.specs.Prelude.{List, MatchOption, EachIndex, slice_index, ◌≡◌, ◌/◌, ◌%◌};
ghost use Rattle.paper.specs.Match.{lies_in};
ghost use Rattle.overlap_cells.specs.Places.{places, last_cell};
ghost use Rattle.overlap_cells.specs.Cells.{pattern_from, OnlyAllFrom, OnlyAllFrom-prop, firsts_from, EndsAt, chain_stack};
ghost use Rattle.overlap_cells.specs.Best.{alone, lowest_in};
ghost use Rattle.overlap_cells.specs.declared.chain.Chain.{Chain};

use crate::cells::PLACES;
use crate::{Chain, Element, Firsts, Functions};
use paper::element;

// Two patterns, the place from which on each has only `all`, and the domain in which the top of a stack is to lie.
#[derive(Drop)]
pub struct Pair<'a> {
    pub functions: &'a Functions<'a>,
    pub domain: u16,
    pub p: &'a [u16],
    pub q: &'a [u16],
    p_end: usize,
    q_end: usize,
    ghost p_ended: { OnlyAllFrom p.now p_end } by { OnlyAllFrom-prop p.now p_end },
    ghost q_ended: { OnlyAllFrom q.now q_end } by { OnlyAllFrom-prop q.now q_end },
}

// The last place with an element other than `all`.
fn last_other(p: &[u16]) -> Option<usize>
    ensures { MatchOption result (EachIndex p.now (λ k. slice_index p.now k ≡ 0)) (λ i. EndsAt p.now i) }
{
    p.iter().rposition(|word| *word != element::ALL)
}

// The place from which on a pattern has only `all`.
pub fn only_all_from(p: &[u16]) -> usize
    ensures { OnlyAllFrom p.now result }
{
    match last_other(p) {
        Some(i) => i + 1,
        None => 0,
    }
}

impl<'a> Pair<'a> {
    pub fn new(functions: &'a Functions<'a>, domain: u16, p: &'a [u16], q: &'a [u16]) -> Self
        ensures domains { result.functions.now.domains.now ≡ functions.now.domains.now }
        ensures domain { result.domain ≡ domain }
        ensures patterns { (result.p.now ≡ p.now) × (result.q.now ≡ q.now) }
    {
        let p_end = only_all_from(p);
        let q_end = only_all_from(q);
        Pair {
            functions,
            domain,
            p,
            q,
            p_end,
            q_end,
        }
    }

    // The lowest function in the domain alone.
    pub fn lowest_alone(&self) -> Chain
        ensures by_cells { (chains : List Chain) → chain_stack chains result
            ≡ alone self.now.functions.now.domains.now (lowest_in self.now.functions.now.domains.now self.now.domain) }
        ensures rest_value { result.rest ≡ last_cell }
    {
        let Some(f) = self.functions.lowest_in(self.domain) else {
            return Chain::NONE;
        };
        Chain::alone(f)
    }

    // The first elements of the patterns of cell k.
    #[inline(always)]
    pub fn firsts(&self, k: usize) -> Firsts
        ensures { result ≡ firsts_from self.now.functions.now.domains.now (lies_in self.now.functions.now.domains.now self.now.domain)
            (pattern_from (k / places) self.now.p.now) (pattern_from (k % places) self.now.q.now) }
    {
        let i = k / PLACES;
        let j = k % PLACES;
        let last = (self.p_end <= i + 1) & (self.q_end <= j + 1);
        match (self.p.get(i), self.q.get(j)) {
            (Some(a), Some(b)) => Firsts::of(
                self.functions,
                self.domain,
                Element::from(*a),
                Element::from(*b),
                last,
            ),
            _ => Firsts::Apart,
        }
    }
}
