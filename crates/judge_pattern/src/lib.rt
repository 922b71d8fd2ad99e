// Patterns of elements (`paper::element`) against stacks of function numbers, base first; functions are given by their domains.
#![tactic(auto)]

ghost use Rattle.std.specs.Prelude.{◌≡◌, ◌||◌, map, ◌<◌, ◌≤◌, eqb, length, get_or, position};
ghost use Rattle.paper.specs.Common.{all_of};
ghost use Rattle.paper.specs.Match.{matches, is_all};
ghost use Rattle.paper.specs.Table.{element_in};
ghost use Rattle.laws.specs.Frames.{meets_frame};
ghost use Rattle.judge_pattern.specs.Run.{Meeting, EndsMayMeet, Says, SaysOfTop, matches_later};

use paper::element;

// An element that is not `all` meets a frame: it is that function, or a domain that the function lies in.
fn meets(functions: &[u16], one: u16, frame: u16) -> bool
    requires { one ≡ 0 → ⊥ }
    ensures { result ≡ meets_frame functions.now (element_in one) frame }
{
    if one < element::FIRST_DOMAIN {
        return one - 1 == frame;
    }
    match functions.get(frame as usize) {
        Some(domain) => *domain == one - element::FIRST_DOMAIN,
        None => false,
    }
}

// The words of the elements besides `all` that can meet a frame: its function's, and its domain's. One that is not listed lies in
// no domain, and has `all` there.
#[derive(Clone, Copy)]
pub struct Words {
    pub function: usize,
    pub domain: usize,
}

impl Words {
    pub fn of_frame(functions: &[u16], frame: u16) -> Words
        ensures { Meeting functions.now frame result }
    {
        let f = frame as usize;
        Words {
            function: f + 1,
            domain: match functions.get(f) {
                Some(domain) => *domain as usize + element::FIRST_DOMAIN as usize,
                None => element::ALL as usize,
            },
        }
    }

    // All three are compared at once, without a branch for each.
    fn may_have(self, one: u16) -> bool
        ensures { result ≡ (eqb one 0 || (eqb one self.function || eqb one self.domain)) }
    {
        let w = one as usize;
        (one == element::ALL) | ((w == self.function) | (w == self.domain))
    }
}

// The first element may meet the base and the last one the top: two words that tell of most patterns that they do not match.
pub fn ends_may_meet(pattern: &[u16], base: Words, top: Words) -> bool
    ensures { EndsMayMeet pattern.now base top result }
{
    let Some((last, _)) = pattern.split_last() else {
        return false;
    };
    top.may_have(*last) && base.may_have(pattern[0])
}

// Reads elements and frames from both ends down, up to an `all`: most patterns that do not match tell here.
// What is left below them, where each of those elements has a frame and meets it.
fn from_top<'a>(
    functions: &[u16],
    pattern: &'a [u16],
    stack: &'a [u16],
) -> Option<(&'a [u16], &'a [u16])>
    ensures { SaysOfTop functions.now pattern.now stack.now result }
{
    let mut elements = pattern;
    let mut frames = stack;
    while let Some((last, before)) = elements.split_last() {
        if *last == element::ALL {
            break;
        }
        let (top, below) = frames.split_last()?;
        if !meets(functions, *last, *top) {
            return None;
        }
        elements = before;
        frames = below;
    }
    Some((elements, frames))
}

// What comes of reading an element and a frame at a time, up to an `all`.
#[derive(Clone, Copy)]
enum Run<'a> {
    // both are read to their end
    Match,
    // no match from this frame on
    Fail,
    // nor from any later frame on
    Never,
    // every element up to an `all` fits: what stands behind it, and the frames left
    All { rest: &'a [u16], frames: &'a [u16] },
}

// Reads elements and frames from the front, up to an `all`.
fn up_to_all<'a>(functions: &[u16], pattern: &'a [u16], stack: &'a [u16]) -> Run<'a>
    ensures { Says result functions.now pattern.now stack.now }
{
    let mut elements = pattern;
    let mut frames = stack;
    while let Some((one, rest)) = elements.split_first() {
        if *one == element::ALL {
            return Run::All { rest, frames };
        }
        let Some((frame, above)) = frames.split_first() else {
            return Run::Never;
        };
        if !meets(functions, *one, *frame) {
            return Run::Fail;
        }
        elements = rest;
        frames = above;
    }
    if frames.is_empty() {
        Run::Match
    } else {
        Run::Fail
    }
}

// The first frame that the element, which is not `all`, meets.
fn next_meeting(functions: &[u16], one: u16, frames: &[u16]) -> Option<usize>
    requires { one ≡ 0 → ⊥ }
    ensures { result ≡ position (meets_frame functions.now (element_in one)) frames.now }
{
    frames
        .iter()
        .position(|frame| meets(functions, one, *frame))
}

// The pattern, behind an `all`, against the stack. `all`s that stand together swallow what one does.
// Once the elements up to the next `all` fit, no later place is tried: the frames between, that `all` can swallow.
fn walk(functions: &[u16], pattern: &[u16], stack: &[u16]) -> bool
    ensures { result ≡ matches_later functions.now pattern.now stack.now }
{
    let Some(start) = pattern.iter().position(|one| *one != element::ALL) else {
        return true;
    };
    let elements = &pattern[start..];
    let mut left = stack;
    while let Some(k) = next_meeting(functions, elements[0], left) {
        let met = &left[k..];
        match up_to_all(functions, elements, met) {
            Run::Match => return true,
            Run::Never => return false,
            Run::All { rest, frames } => return walk(functions, rest, frames),
            Run::Fail => {
                left = &met[1..];
            }
        }
    }
    false
}

// The pattern matches the stack, from the base up.
fn matches_from_base(functions: &[u16], pattern: &[u16], stack: &[u16]) -> bool
    ensures { result ≡ matches functions.now (map element_in pattern.now) stack.now }
{
    match up_to_all(functions, pattern, stack) {
        Run::Match => true,
        Run::Fail | Run::Never => false,
        Run::All { rest, frames } => walk(functions, rest, frames),
    }
}

// The pattern matches the stack: first its end, which fails soonest.
pub fn matches_stack(functions: &[u16], pattern: &[u16], stack: &[u16]) -> bool
    ensures { result ≡ matches functions.now (map element_in pattern.now) stack.now }
{
    match from_top(functions, pattern, stack) {
        None => false,
        Some((elements, frames)) => matches_from_base(functions, elements, frames),
    }
}

// Every element is `all`.
pub fn is_all(pattern: &[u16]) -> bool
    ensures { result ≡ all_of is_all (map element_in pattern.now) }
{
    pattern.iter().all(|one| *one == element::ALL)
}
