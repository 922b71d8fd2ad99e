// The functions of a table, and the frames that elements of patterns meet.
ghost use Rattle.std.specs.Prelude.{◌≡◌, ◌≤◌, length};
ghost use Rattle.paper.specs.Limits.{most_members};
ghost use Rattle.paper.specs.Match.{lies_in};
ghost use Rattle.laws.specs.Frames.{meets_frame};
ghost use Rattle.overlap_cells.specs.Element.{meant};
ghost use Rattle.overlap_cells.specs.Best.{alone, lowest_in, lowest_frame, common_frame, frame_of, InDomains, Lows, Lows-prop};

use crate::Element;
use paper::limit;

// The domain of each function, and the lowest function of each domain, lent by whoever has them.
#[derive(Drop)]
pub struct Functions<'a> {
    pub domains: &'a [u16],
    pub lows: &'a [Option<u16>],
    pub ghost lowest: { Lows domains.now lows.now } by { Lows-prop domains.now lows.now },
}

// The lowest function of each domain: worked out once for a report.
pub fn lowest_functions(domains: &[u16]) -> [Option<u16>; limit::DOMAINS]
    requires { (length domains.now ≤ most_members) × InDomains domains.now }
    ensures { Lows domains.now result }
{
    let mut lows = [None; limit::DOMAINS];
    for f in (0..domains.len()).rev() {
        lows[domains[f] as usize] = Some(f as u16);
    }
    lows
}

impl<'a> Functions<'a> {
    // The lowest function in a domain.
    pub fn lowest_in(&self, domain: u16) -> Option<u16>
        ensures { frame_of result ≡ alone self.now.domains.now (lowest_in self.now.domains.now domain) }
    {
        *self.lows.get(domain as usize)?
    }

    pub fn lies_in(&self, domain: u16, f: u16) -> bool
        ensures { result ≡ lies_in self.now.domains.now domain f }
    {
        self.domains.get(f as usize) == Some(&domain)
    }

    fn meets(&self, element: Element, f: u16) -> bool
        ensures { result ≡ meets_frame self.now.domains.now (meant element) f }
    {
        match element {
            Element::All => true,
            Element::Function(g) => g == f,
            Element::Domain(d) => self.lies_in(d, f),
        }
    }

    // The lowest frame that an element other than `all` meets.
    fn lowest_frame(&self, element: Element) -> Option<u16>
        ensures { frame_of result ≡ lowest_frame self.now.domains.now (meant element) }
    {
        match element {
            Element::All => None,
            Element::Function(f) => Some(f),
            Element::Domain(d) => self.lowest_in(d),
        }
    }

    // The lowest frame that two elements, one of them not `all`, both meet.
    #[inline(always)]
    pub fn common_frame(&self, a: Element, b: Element) -> Option<u16>
        ensures { frame_of result ≡ common_frame self.now.domains.now (meant a) (meant b) }
    {
        match (a, b) {
            (Element::All, other) => self.lowest_frame(other),
            (Element::Function(f), other) => self.meets(other, f).then_some(f),
            (Element::Domain(_), Element::All) => self.lowest_frame(a),
            (Element::Domain(d), Element::Function(f)) => self.lies_in(d, f).then_some(f),
            // Two domains share functions only where they are one.
            (Element::Domain(d), Element::Domain(e)) => if d == e {
                self.lowest_in(d)
            } else {
                None
            },
        }
    }
}
