// Scalars: names, users and groups, identifiers. Tests that stand beside each other are joined by `&` and `|`, as the definitions join them.
#![tactic(auto)]

ghost use Rattle.std.specs.Prelude.{◌≡◌, [], ◌∷◌, length};
ghost use Rattle.std.specs.List.{list_all};
ghost use Rattle.paper.specs.Common.{within, cut};
ghost use Rattle.paper.specs.Text.{bar};
ghost use Rattle.paper.specs.Scalars.{is_digit, name_byte, identifier_byte};
ghost use Rattle.paper.specs.Scalars.{is_name, is_domain_name, is_variable, is_uid, is_gid, is_line_number, meets, parts_fit, is_identifier, is_scalar};
ghost use Rattle.paper.specs.declared.Kind.TheVariants.{Subject, Object};
ghost use Rattle.paper.specs.declared.Scalar.TheVariants.{PatternElement};
ghost use Rattle.text_scalars.specs.Sorts.{sort_named, parts_meet, needs_of};
ghost use Rattle.text_scalars.specs.Classed.{fits_kind};

use paper::{Kind, Need, Scalar, limit};
use text_bytes::byte;

// The sorts of object, by the first part of an identifier.
#[derive(Clone, Copy)]
enum ObjectSort {
    Global,
    Io,
    Heap,
    StackRegion,
    StackFrame,
    Other,
}

// What a sort says of path, line and name.
#[derive(Clone, Copy)]
struct Needs {
    path: Need,
    line: Need,
    name: Need,
}

pub fn has_name_length(s: &[u8]) -> bool
    ensures { result ≡ within 1 64 (length s.now) }
{
    (1 <= s.len()) & (s.len() <= limit::NAME_BYTES)
}

// Every byte may stand in a name.
fn name_bytes(s: &[u8]) -> bool
    ensures { result ≡ list_all name_byte s.now }
{
    s.iter().all(|b| text_bytes::name_byte(*b))
}

// Every byte may stand in an identifier.
fn identifier_bytes(s: &[u8]) -> bool
    ensures { result ≡ list_all identifier_byte s.now }
{
    s.iter().all(|b| text_bytes::identifier_byte(*b))
}

fn digits(s: &[u8]) -> bool
    ensures { result ≡ list_all is_digit s.now }
{
    s.iter().all(|b| text_bytes::is_digit(*b))
}

pub fn is_name(s: &[u8]) -> bool
    ensures { result ≡ is_name s.now }
{
    has_name_length(s) & name_bytes(s)
}

pub fn is_domain_name(s: &[u8]) -> bool
    ensures { result ≡ is_domain_name s.now }
{
    is_name(s) & !text_bytes::same(b"all", s)
}

pub fn is_variable(s: &[u8]) -> bool
    ensures { result ≡ is_variable s.now }
{
    let reserved = text_bytes::same(b"all", s)
        | text_bytes::same(b"root", s)
        | text_bytes::same(b"user", s);
    is_name(s) & !reserved
}

pub fn is_uid(s: &[u8]) -> bool
    ensures { result ≡ is_uid s.now }
{
    text_bytes::same(b"root", s)
        | text_bytes::same(b"user", s)
        | text_bytes::same(b"all", s)
        | is_variable(s)
}

pub fn is_gid(s: &[u8]) -> bool
    ensures { result ≡ is_gid s.now }
{
    text_bytes::same(b"all", s) | is_variable(s)
}

fn is_line_number(s: &[u8]) -> bool
    ensures { result ≡ is_line_number s.now }
{
    match s {
        [] => false,
        [first, ..] => (s.len() <= limit::LINE_DIGITS) & digits(s) & (*first != b'0'),
    }
}

// A part of an identifier is as a sort needs it.
fn meets(need: Need, part: &[u8]) -> bool
    ensures { result ≡ meets need part.now }
{
    match need {
        Need::Needed => part.len() != 0,
        Need::Absent => part.len() == 0,
        Need::Free => true,
    }
}

// Path, line and name are as a sort needs them, and the line, if there is one, is a number.
fn parts_meet(needs: Needs, p: &[u8], l: &[u8], n: &[u8]) -> bool
    ensures { result ≡ parts_meet needs.path needs.line needs.name p.now l.now n.now }
{
    meets(needs.path, p)
        & meets(needs.line, l)
        & ((l.len() == 0) | is_line_number(l))
        & meets(needs.name, n)
}

// The sort that a word names, if it names one.
fn object_sort(word: &[u8]) -> Option<ObjectSort>
    ensures { result ≡ sort_named word.now }
{
    if text_bytes::same(b"GLOBAL", word) {
        return Some(ObjectSort::Global);
    }
    if text_bytes::same(b"IO", word) {
        return Some(ObjectSort::Io);
    }
    if text_bytes::same(b"HEAP", word) {
        return Some(ObjectSort::Heap);
    }
    if text_bytes::same(b"STACK_REGION", word) {
        return Some(ObjectSort::StackRegion);
    }
    if text_bytes::same(b"STACK_FRAME", word) {
        return Some(ObjectSort::StackFrame);
    }
    if text_bytes::same(b"OTHER", word) {
        return Some(ObjectSort::Other);
    }
    None
}

// The table of sorts.
fn needs_of(sort: ObjectSort) -> Needs
    ensures { result ≡ needs_of sort }
{
    match sort {
        ObjectSort::Global | ObjectSort::Io => Needs {
            path: Need::Needed,
            line: Need::Needed,
            name: Need::Needed,
        },
        ObjectSort::Heap | ObjectSort::StackRegion => Needs {
            path: Need::Needed,
            line: Need::Needed,
            name: Need::Absent,
        },
        ObjectSort::StackFrame => Needs {
            path: Need::Needed,
            line: Need::Absent,
            name: Need::Needed,
        },
        ObjectSort::Other => Needs {
            path: Need::Free,
            line: Need::Free,
            name: Need::Free,
        },
    }
}

// Exactly one `|`, and bytes on both sides.
fn subject_parts_fit(s: &[u8]) -> bool
    ensures { result ≡ parts_fit Subject (cut bar s.now) }
{
    let left_end = text_bytes::find(s, 0, byte::BAR);
    if s.len() <= left_end {
        return false;
    }
    let right = left_end + 1;
    let right_end = text_bytes::find(s, right, byte::BAR);
    (s.len() <= right_end) & (left_end != 0) & (right != s.len())
}

// These parts are those of an object identifier.
pub fn object_fits(sort: &[u8], path: &[u8], line: &[u8], name: &[u8]) -> bool
    ensures { result ≡ parts_fit Object (sort.now ∷ path.now ∷ line.now ∷ name.now ∷ []) }
{
    match object_sort(sort) {
        Some(sort) => parts_meet(needs_of(sort), path, line, name),
        None => false,
    }
}

// Three `|`, and parts as the sort needs them.
fn object_parts_fit(s: &[u8]) -> bool
    ensures { result ≡ parts_fit Object (cut bar s.now) }
{
    let sort_end = text_bytes::find(s, 0, byte::BAR);
    if s.len() <= sort_end {
        return false;
    }
    let path = sort_end + 1;
    let path_end = text_bytes::find(s, path, byte::BAR);
    if s.len() <= path_end {
        return false;
    }
    let line = path_end + 1;
    let line_end = text_bytes::find(s, line, byte::BAR);
    if s.len() <= line_end {
        return false;
    }
    let name = line_end + 1;
    let name_end = text_bytes::find(s, name, byte::BAR);
    if name_end < s.len() {
        return false;
    }
    object_fits(
        &s[0..sort_end],
        &s[path..path_end],
        &s[line..line_end],
        &s[name..],
    )
}

fn parts_fit(kind: Kind, s: &[u8]) -> bool
    ensures { result ≡ parts_fit kind (cut bar s.now) }
{
    match kind {
        Kind::Subject => subject_parts_fit(s),
        Kind::Object => object_parts_fit(s),
    }
}

// What is asked of an identifier besides the class of its bytes.
fn fits_kind(kind: Kind, s: &[u8]) -> bool
    ensures { result ≡ fits_kind kind s.now }
{
    match s {
        [] => false,
        [first, ..] => (s.len() <= limit::IDENTIFIER_BYTES)
            & text_bytes::identifier_first(*first)
            & parts_fit(kind, s),
    }
}

pub fn is_identifier(kind: Kind, s: &[u8]) -> bool
    ensures { result ≡ is_identifier kind s.now }
{
    fits_kind(kind, s) & identifier_bytes(s)
}

// Functions are the common case: asked before names.
fn is_pattern_element(s: &[u8]) -> bool
    ensures { result ≡ is_scalar PatternElement s.now }
{
    if text_bytes::same(b"all", s) {
        return true;
    }
    is_identifier(Kind::Subject, s) || is_domain_name(s)
}

pub fn is_scalar(scalar: Scalar, s: &[u8]) -> bool
    ensures { result ≡ is_scalar scalar s.now }
{
    match scalar {
        Scalar::DomainName => is_domain_name(s),
        Scalar::UidValue => is_uid(s),
        Scalar::GidValue => is_gid(s),
        Scalar::SubjectIdentifier => is_identifier(Kind::Subject, s),
        Scalar::ObjectIdentifier => is_identifier(Kind::Object, s),
        Scalar::PatternElement => is_pattern_element(s),
    }
}
