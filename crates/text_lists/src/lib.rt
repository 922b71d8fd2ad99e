// Values: lists, the walk over their elements, and what is wrong with the value of a field.
#![tactic(auto)]

ghost use Rattle.std.specs.Prelude.{◌≡◌, true, ◌&&◌, ◌+◌, ◌-◌, ◌<◌, ◌≤◌, eqb, leb, length, get_or, drop};
ghost use Rattle.std.specs.Bool.{beq};
ghost use Rattle.paper.specs.Common.{all_of, is};
ghost use Rattle.paper.specs.Text.{comma, space};
ghost use Rattle.paper.specs.Scalars.{identifier_byte, identifier_first, is_scalar};
ghost use Rattle.paper.specs.declared.Scalar.TheVariants.{DomainName, SubjectIdentifier, ObjectIdentifier, PatternElement};
ghost use Rattle.paper.specs.Lists.{bracketed, spaced, elements_in, list_fault};
ghost use Rattle.paper.specs.Listing.{bare_is_none, value_fault};
ghost use Rattle.text_bytes.specs.Classes.{part_of, run};
ghost use Rattle.text_lists.specs.Walk.{first_element, element_at};
ghost use Rattle.text_lists.specs.Faults.{right_or, unless_fault, inside_fault};
ghost use Rattle.text_lists.specs.Reading.{element_ends, bar_stands, read_at};

use paper::{Scalar, Value, limit, refusal};
use text_bytes::{OfIdentifier, OfName, byte, part_end};

// An element of a list: it ends at `end`, and the next begins at `next`.
#[derive(Clone, Copy)]
pub struct Element {
    pub end: usize,
    pub next: usize,
}

pub fn bracketed(v: &[u8]) -> bool
    ensures { result ≡ bracketed v.now }
{
    match v {
        [first, .., last] => (*first == byte::OPEN_BRACKET) & (*last == byte::CLOSE_BRACKET),
        _ => false,
    }
}

// A space stands behind a comma, and nowhere else.
fn space_fits(last: u8, b: u8) -> bool
    ensures { result ≡ beq (eqb last comma) (eqb b space) }
{
    (last == byte::COMMA) == (b == byte::SPACE)
}

// The loop has no exit, so that it takes many bytes at a time.
fn spaced(s: &[u8]) -> bool
    ensures { result ≡ spaced 0 s.now }
{
    let [first, ..] = s else {
        return true;
    };
    let mut right = *first != byte::SPACE;
    for i in 1..s.len() {
        right = right & space_fits(s[i - 1], s[i]);
    }
    right & (s[s.len() - 1] != byte::COMMA)
}

// Where the walk over what stands between the brackets starts: past the end where nothing does.
pub fn first_element(s: &[u8]) -> usize
    ensures { result ≡ first_element s.now }
{
    if s.len() == 0 {
        return 1;
    }
    0
}

// The element that begins at a place, if one does. The next begins behind the comma and its space; behind the last that is past the end.
pub fn element_at(s: &[u8], at: usize) -> Option<Element>
    ensures { result ≡ element_at s.now at }
{
    if s.len() < at {
        return None;
    }
    let end = text_bytes::find(s, at, byte::COMMA);
    Some(Element { end, next: end + 2 })
}

// An element ends there: a comma stands there, or nothing.
fn element_ends(s: &[u8], i: usize) -> bool
    ensures { result ≡ element_ends (drop i s.now) }
{
    match s.get(i) {
        None => true,
        Some(b) => *b == byte::COMMA,
    }
}

fn bar_stands(s: &[u8], i: usize) -> bool
    ensures { result ≡ bar_stands (drop i s.now) }
{
    match s.get(i) {
        None => false,
        Some(b) => *b == byte::BAR,
    }
}

// What is asked of an identifier besides its parts.
fn identifier_begins(s: &[u8], at: usize, end: usize) -> bool
    requires at_in_bounds { at < length s.now }
    requires at_le_end { at ≤ end }
    ensures { result ≡ (leb (end - at) 128 && identifier_first (get_or s.now at 0)) }
{
    (end - at <= limit::IDENTIFIER_BYTES) & text_bytes::identifier_first(s[at])
}

// An element whose first part ends at a place: exactly one `|`, and bytes on both sides.
fn read_subject(s: &[u8], at: usize, bar: usize) -> Option<usize>
    requires { bar ≡ at + run (part_of identifier_byte) (drop at s.now) }
    ensures { result ≡ read_at SubjectIdentifier s.now at }
{
    if !bar_stands(s, bar) {
        return None;
    }
    let name = bar + 1;
    let end = part_end::<OfIdentifier>(s, name);
    if !element_ends(s, end) {
        return None;
    }
    let right = identifier_begins(s, at, end) & (at < bar) & (name < end);
    right.then_some(end)
}

// Three `|`, and parts as the sort needs them.
fn read_object(s: &[u8], at: usize) -> Option<usize>
    requires { at ≤ length s.now }
    ensures { result ≡ read_at ObjectIdentifier s.now at }
{
    let sort_end = part_end::<OfIdentifier>(s, at);
    if !bar_stands(s, sort_end) {
        return None;
    }
    let path = sort_end + 1;
    let path_end = part_end::<OfIdentifier>(s, path);
    if !bar_stands(s, path_end) {
        return None;
    }
    let line = path_end + 1;
    let line_end = part_end::<OfIdentifier>(s, line);
    if !bar_stands(s, line_end) {
        return None;
    }
    let name = line_end + 1;
    let end = part_end::<OfIdentifier>(s, name);
    if !element_ends(s, end) {
        return None;
    }
    let fits = text_scalars::object_fits(
        &s[at..sort_end],
        &s[path..path_end],
        &s[line..line_end],
        &s[name..end],
    );
    let right = identifier_begins(s, at, end) & fits;
    right.then_some(end)
}

// Without a `|` it is `all` or a name.
fn read_pattern(s: &[u8], at: usize) -> Option<usize>
    requires { at ≤ length s.now }
    ensures { result ≡ read_at PatternElement s.now at }
{
    let end = part_end::<OfIdentifier>(s, at);
    if !element_ends(s, end) {
        return read_subject(s, at, end);
    }
    if is_all(&s[at..end]) {
        return Some(end);
    }
    text_scalars::is_domain_name(&s[at..end]).then_some(end)
}

fn read_name(s: &[u8], at: usize) -> Option<usize>
    requires { at ≤ length s.now }
    ensures { result ≡ read_at DomainName s.now at }
{
    let end = part_end::<OfName>(s, at);
    if !element_ends(s, end) {
        return None;
    }
    let name = &s[at..end];
    let right = text_scalars::has_name_length(name) & !is_all(name);
    right.then_some(end)
}

// Users and groups, of which no page has a list.
fn read_other(scalar: Scalar, s: &[u8], at: usize) -> Option<usize>
    requires { at ≤ length s.now }
    ensures { result ≡ read_at scalar s.now at }
{
    let end = text_bytes::find(s, at, byte::COMMA);
    text_scalars::is_scalar(scalar, &s[at..end]).then_some(end)
}

// One walk over the element. It answers where the element ends, as the readers above do, if it is the scalar asked for.
fn read_scalar(scalar: Scalar, s: &[u8], at: usize) -> Option<usize>
    requires { at ≤ length s.now }
    ensures { result ≡ read_at scalar s.now at }
{
    match scalar {
        Scalar::DomainName => read_name(s, at),
        Scalar::UidValue | Scalar::GidValue => read_other(scalar, s, at),
        Scalar::SubjectIdentifier => {
            let bar = part_end::<OfIdentifier>(s, at);
            read_subject(s, at, bar)
        }
        Scalar::ObjectIdentifier => read_object(s, at),
        Scalar::PatternElement => read_pattern(s, at),
    }
}

// Every element is the scalar: the walk ends behind the last one. It goes by elements, whose ends it reads, so it is no `for`.
// Not inlined: the loop would make its caller's answer anew at each element.
#[inline(never)]
fn all_are(scalar: Scalar, s: &[u8]) -> bool
    requires { spaced 0 s.now ≡ true }
    ensures { result ≡ all_of (is_scalar scalar) (elements_in s.now) }
{
    let mut at = first_element(s);
    while at <= s.len() {
        let Some(end) = read_scalar(scalar, s, at) else {
            return false;
        };
        at = end + 2;
    }
    true
}

// What is right, or the number of what is wrong with it.
fn right_or(right: bool, number: u16) -> Result<(), u16>
    ensures { result ≡ right_or right number }
{
    if right { Ok(()) } else { Err(number) }
}

fn inside_fault(scalar: Scalar, s: &[u8]) -> Result<(), u16>
    ensures { result ≡ unless_fault (inside_fault scalar s.now) }
{
    if !spaced(s) {
        return Err(refusal::LAYOUT);
    }
    right_or(all_are(scalar, s), refusal::SCALAR)
}

pub fn list_fault(scalar: Scalar, v: &[u8]) -> Result<(), u16>
    ensures { result ≡ unless_fault (list_fault scalar v.now) }
{
    if bracketed(v) {
        let last = v.len() - 1;
        return inside_fault(scalar, &v[1..last]);
    }
    Err(refusal::LAYOUT)
}

pub fn is_all(v: &[u8]) -> bool
    ensures { result ≡ is "all" v.now }
{
    text_bytes::same(b"all", v)
}

fn is_none(v: &[u8]) -> bool
    ensures { result ≡ is "[]" v.now }
{
    text_bytes::same(b"[]", v)
}

// A value that is right, or the number of its refusal.
pub fn value_fault(value: Value, v: &[u8]) -> Result<(), u16>
    ensures { result ≡ unless_fault (value_fault value v.now) }
{
    match value {
        Value::Keys => Err(refusal::LAYOUT),
        Value::NoneOrItems => right_or(is_none(v), refusal::LAYOUT),
        Value::AllOrKeys => right_or(is_all(v), refusal::LAYOUT),
        Value::AllNoneOrItems => right_or(is_all(v) | is_none(v), refusal::LAYOUT),
        Value::One(s) => right_or(text_scalars::is_scalar(s, v), refusal::SCALAR),
        Value::ListOf(s) => list_fault(s, v),
        Value::SomeOf(s) => {
            if is_none(v) {
                Err(refusal::EMPTY_FIELD)
            } else {
                list_fault(s, v)
            }
        }
        Value::ListOrAll(s) => { if is_all(v) { Ok(()) } else { list_fault(s, v) } }
    }
}

// A bare field of this value is `[]`.
pub fn bare_is_none(value: Value) -> bool
    ensures { result ≡ bare_is_none value }
{
    matches!(value, Value::AllNoneOrItems | Value::ListOrAll(_))
}
