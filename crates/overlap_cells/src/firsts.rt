// The first elements of two patterns.
ghost use Rattle.std.specs.Prelude.{◌≡◌};
ghost use Rattle.paper.specs.Match.{lies_in};
ghost use Rattle.overlap_cells.specs.Element.{meant};
ghost use Rattle.overlap_cells.specs.Best.{firsts_of};

use crate::{Element, Functions};

// The first elements of two patterns, by the base frame that they ask for; alone: it may be the only frame.
#[derive(Clone, Copy)]
pub enum Firsts {
    BothAll { alone: bool },
    OneAll { function: u16, alone: bool },
    OtherAll { function: u16, alone: bool },
    Same { function: u16, alone: bool },
    Apart,
}

impl Firsts {
    // last: what comes after the two elements may be left out.
    #[inline(always)]
    pub fn of(functions: &Functions, domain: u16, a: Element, b: Element, last: bool) -> Firsts
        ensures { result ≡ firsts_of functions.now.domains.now (lies_in functions.now.domains.now domain) (meant a) (meant b) last }
    {
        match (a, b) {
            (Element::All, Element::All) => Firsts::BothAll { alone: last },
            (Element::All, _) => match functions.common_frame(a, b) {
                Some(function) => Firsts::OneAll {
                    function,
                    alone: functions.lies_in(domain, function) & last,
                },
                None => Firsts::Apart,
            },
            (_, Element::All) => match functions.common_frame(a, b) {
                Some(function) => Firsts::OtherAll {
                    function,
                    alone: functions.lies_in(domain, function) & last,
                },
                None => Firsts::Apart,
            },
            _ => match functions.common_frame(a, b) {
                Some(function) => Firsts::Same {
                    function,
                    alone: functions.lies_in(domain, function) & last,
                },
                None => Firsts::Apart,
            },
        }
    }
}
