// What the names at a place are looked up in.
ghost use Rattle.std.specs.Prelude.{◌≡◌, [], ◌∷◌, eqb};
ghost use Rattle.paper.specs.Common.{any_of};
ghost use Rattle.file_words.specs.Looking.{sought_at};

use file_fields::is_call_context;
use text_keys::rows;

// At a place stands one subject domain, a list of subject or object domains, or the elements of a pattern.
#[derive(Clone, Copy)]
pub enum Sought {
    Subject,
    Subjects,
    Objects,
    Elements,
    Nothing,
}

// The place is one of the two.
pub fn is_either(place: usize, one: usize, other: usize) -> bool
    ensures { result ≡ any_of (eqb place) (one ∷ other ∷ []) }
{
    (place == one) | (place == other)
}

pub fn sought_at(place: usize) -> Sought
    ensures { result ≡ sought_at place }
{
    if place == rows::SUBJECT {
        return Sought::Subject;
    }
    if is_either(place, rows::CAN_CALL, rows::CAN_RETURN) {
        return Sought::Subjects;
    }
    if is_either(place, rows::READ_OBJECTS, rows::WRITE_OBJECTS) {
        return Sought::Objects;
    }
    if is_call_context(place) {
        return Sought::Elements;
    }
    Sought::Nothing
}
