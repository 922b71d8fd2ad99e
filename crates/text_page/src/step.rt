// One line of a page: the field on it, or the refusal that it brings.
ghost use Rattle.std.specs.Prelude.{◌≡◌, ◌≢◌, ◌≤◌, ◌&&◌, ℕ, Bool, true, false, cond, length, MatchResult};
ghost use Rattle.paper.specs.Listing.{key_at};
ghost use Rattle.paper.specs.Page.{is_left_empty, one_space_and_value, place_step, line_step};
ghost use Rattle.text_lists.specs.Faults.{unless_fault};
ghost use Rattle.text_page.specs.Steps.{state_of, step_of, StartsIn, rest_fault};
ghost use Rattle.text_page.specs.declared.step.State.{State};

use paper::{Fault, refusal};
use text_bytes::byte;
use text_keys::Placed;
use text_keys::rows::{self, Row};

// Between two lines: the place and line of the last field, and whether it was bare.
#[derive(Clone, Copy)]
pub struct State {
    pub place: usize,
    pub bare: bool,
    pub line: usize,
}

// A field on a line. Its value starts so many bytes behind the start of the line.
#[derive(Clone, Copy)]
pub struct Keyed {
    pub place: usize,
    pub bare: bool,
    pub start: usize,
}

// The field above is left empty, unless its block begins here.
pub fn is_left_empty(st: State, here: bool) -> bool
    ensures { result ≡ is_left_empty (state_of st) here }
{
    st.bare & !here && !text_lists::bare_is_none(rows::row_at(st.place).value)
}

// Refuses the field above where it is left empty.
pub fn above_is_full(st: State, here: bool) -> Result<(), Fault>
    ensures { MatchResult result (λ u. is_left_empty (state_of st) here ≡ false) (λ r. (is_left_empty (state_of st) here ≡ true) × (r ≡ record { number = 9; line = st.line })) }
{
    if is_left_empty(st, here) {
        return Err(Fault {
            number: refusal::EMPTY_FIELD,
            line: st.line,
        });
    }
    Ok(())
}

fn one_space_and_value(rest: &[u8]) -> bool
    ensures { result ≡ one_space_and_value rest.now }
{
    2 <= rest.len()
        && (rest[0] == byte::SPACE)
            & (rest[1] != byte::SPACE)
            & (rest[rest.len() - 1] != byte::SPACE)
}

// What is wrong with what stands after the key of a place, where something does.
fn rest_fault(place: usize, rest: &[u8]) -> Result<(), u16>
    ensures { result ≡ unless_fault (rest_fault place rest.now) }
{
    if !one_space_and_value(rest) {
        return Err(refusal::LAYOUT);
    }
    let value = rows::row_at(place).value;
    text_lists::value_fault(value, &rest[1..])
}

// Line n, on which the key of a place was found.
fn place_step(n: usize, found: Placed, l: &[u8]) -> Result<Option<Keyed>, Fault>
    requires found { found.place ≢ 0 }
    requires within { (found.length ≡ length (key_at found.place)) × (found.length ≤ length l.now) }
    ensures by_index { (st : State) (from : ℕ) (ended : Bool) → place_step n found.place (record { start = from; text = l.now; ended = ended }) ≡ step_of st n from l.now result }
    ensures starts_in { StartsIn l.now result }
{
    let place = found.place;
    let behind = found.length;
    if behind == l.len() {
        return Ok(Some(Keyed {
            place,
            bare: true,
            start: behind,
        }));
    }
    if let Err(number) = rest_fault(place, &l[behind..]) {
        return Err(Fault { number, line: n });
    }
    Ok(Some(Keyed {
        place,
        bare: false,
        start: behind + 1,
    }))
}

// The places that a line may have: those that the block begins with, where it begins here, or those that follow.
fn places_for(bare: bool, here: bool, row: Row) -> &'static [usize]
    ensures { result.now ≡ cond (bare && here) row.block.now row.next.now }
{
    if bare & here { row.block } else { row.next }
}

// The field on line n after the state; none where the line is skipped.
pub fn line_step(st: State, n: usize, l: &[u8], ended: bool) -> Result<Option<Keyed>, Fault>
    ensures by_index { (from : ℕ) → line_step (state_of st) n (record { start = from; text = l.now; ended = ended }) ≡ step_of st n from l.now result }
    ensures starts_in { StartsIn l.now result }
{
    let layout = Fault {
        number: refusal::LAYOUT,
        line: n,
    };
    if text_lines::skipped(l) {
        if ended {
            return Ok(None);
        }
        above_is_full(st, false)?;
        return Err(layout);
    }
    let row = rows::row_at(st.place);
    let here = text_keys::begins_block(row.block, l);
    above_is_full(st, here)?;
    if !ended {
        return Err(layout);
    }
    let places = places_for(st.bare, here, row);
    let found = text_keys::place_of(places, l).ok_or(layout)?;
    place_step(n, found, l)
}
