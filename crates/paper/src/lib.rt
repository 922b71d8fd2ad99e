// The types that the definitions and the code share: what a field takes, what an event names, and the answers that document 01
// gives; domain sets are functions of `Operation`. The meaning stands in specs/.
#![tactic(auto)]

pub mod element;
pub mod limit;
pub mod refusal;
pub mod violation;

ghost use Rattle.std.specs.Prelude.{◌≡◌};
ghost use Rattle.paper.specs.Table.{is_in, with_domain};

// What a sort of object says of a part of its identifiers.
#[derive(Clone, Copy)]
pub enum Need {
    Needed,
    Absent,
    Free,
}

// The two kinds of identifier.
#[derive(Clone, Copy)]
pub enum Kind {
    Subject,
    Object,
}

// The scalars that a field or an element of a list can be.
#[derive(Clone, Copy)]
pub enum Scalar {
    DomainName,
    UidValue,
    GidValue,
    SubjectIdentifier,
    ObjectIdentifier,
    PatternElement,
}

// What a field takes. `SomeOf` is a list that is not `[]`.
#[derive(Clone, Copy)]
pub enum Value {
    Keys,
    NoneOrItems,
    AllOrKeys,
    AllNoneOrItems,
    One(Scalar),
    ListOf(Scalar),
    SomeOf(Scalar),
    ListOrAll(Scalar),
}

// A function and an object are both numbered from 0 and are kept apart.
#[derive(Clone, Copy)]
pub struct FunctionNumber(pub u16);

#[derive(Clone, Copy)]
pub struct ObjectNumber(pub u16);

// An operation, by its code.
#[derive(Clone, Copy)]
pub struct Operation(pub u16);

impl Operation {
    pub const READ: u16 = 1;

    pub const WRITE: u16 = 2;

    pub const CALL: u16 = 3;

    pub const RETURN: u16 = 4;

    // Domain d is in the set.
    pub fn contains(set: &[u16], d: usize) -> bool
        ensures { result ≡ is_in set.now d }
    {
        let word = set.get(d / 16).copied().unwrap_or(0);
        (word >> (d % 16)) % 2 == 1
    }

    // Puts domain d into the set.
    pub fn insert(set: &mut [u16], d: usize)
        ensures { set.new ≡ with_domain set.old d }
    {
        let i = d / 16;
        if i < set.len() && !Operation::contains(set, d) {
            set[i] += 1 << (d % 16);
        }
    }
}

// An operation with its target: a read or a write is of an object, a call or a return of a function.
#[derive(Clone, Copy)]
pub enum Access {
    Read(ObjectNumber),
    Write(ObjectNumber),
    Call(FunctionNumber),
    Return(FunctionNumber),
}

// What is wrong with a text: the number that it is refused with, and the line.
#[derive(Clone, Copy)]
pub struct Fault {
    pub number: u16,
    pub line: usize,
}

// The reader's answer.
#[derive(Clone, Copy)]
pub enum Reading {
    Accepted,
    Unread { number: u16, line: u32 },
}

// The filler's answer: how many bytes the filled text has, or why there is none.
#[derive(Clone, Copy)]
pub enum Filling {
    Written { size: u32 },
    Unfilled { number: u16, line: u32 },
}

// The judge's answer.
#[derive(Clone, Copy)]
pub enum Verdict {
    Inside,
    Granted { entry: u16 },
    Violation { number: u16 },
    Unjudged { number: u16 },
}

// The overlap report's answer.
#[derive(Clone, Copy)]
pub enum Report {
    Clear,
    Clash {
        lower: u16,
        higher: u16,
        depth: u16,
        uid: u32,
        gid: u32,
        namespace: u32,
    },
    Unreported {
        number: u16,
    },
}

// Which map a name is looked up in.
#[derive(Clone, Copy)]
pub enum Map {
    Objects,
    Subjects,
}
