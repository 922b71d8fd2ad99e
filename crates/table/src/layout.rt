// Where each word of a table stands: the paper's specs/Table.antt says it, and the proofs hold these numbers to that.
ghost use Rattle.std.specs.Prelude.{◌≡◌, ◌≤◌};
ghost use Rattle.paper.specs.Table.{entry_at, descriptor_at};
ghost use Rattle.table.specs.Reach.{reach};

// The head.
pub const MARK_AT: usize = 0;

pub const MARK: u16 = 17492;

pub const OBJECT_DOMAIN_COUNT_AT: usize = 1;

pub const SUBJECT_DOMAIN_COUNT_AT: usize = 2;

pub const OBJECT_COUNT_AT: usize = 3;

pub const FUNCTION_COUNT_AT: usize = 4;

pub const ENTRY_COUNT_AT: usize = 5;

pub const HEAD_SPARE_AT: usize = 6;

pub const HEAD_SPARE_SIZE: usize = 26;

// The blocks after it.
pub const OBJECTS_AT: usize = 32;

pub const FUNCTIONS_AT: usize = 1056;

pub const ENTRIES_AT: usize = 2080;

pub const DESCRIPTORS_AT: usize = 7712;

pub const SPARE_AT: usize = 15904;

pub const SPARE_SIZE: usize = 480;

// In a context: the number of elements stands first.
pub const UID_AT: usize = 1;

pub const GID_AT: usize = 2;

pub const NAMESPACE_AT: usize = 3;

pub const ELEMENTS_AT: usize = 4;

// The sorts of a uid; a gid and a namespace have the first two.
pub const ANYONE: u16 = 0;

pub const VARIABLE: u16 = 1;

pub const ROOT: u16 = 2;

pub const USER: u16 = 3;

// In a grant: whether it grants every listed domain, then the set of those that it grants.
pub const EVERY: u16 = 1;

pub const SET_AT: usize = 1;

pub const SET_SIZE: usize = 8;

pub const WORD_BITS: usize = 16;

// In an entry, after its context.
pub const SUBJECT_AT: usize = 20;

pub const READS_AT: usize = 21;

pub const WRITES_AT: usize = 22;

pub const ENTRY_SPARE_AT: usize = 23;

pub const CALLS_AT: usize = 24;

pub const RETURNS_AT: usize = 33;

pub const ENTRY_TAIL_AT: usize = 42;

pub const ENTRY_TAIL_SIZE: usize = 2;

pub const PRINCIPAL_SIZE: usize = 21;

pub const ENTRY_SIZE: usize = 44;

// In a descriptor, after its context.
pub const GRANT_AT: usize = 20;

pub const DESCRIPTOR_TAIL_AT: usize = 29;

pub const DESCRIPTOR_TAIL_SIZE: usize = 3;

pub const DESCRIPTOR_SIZE: usize = 32;

// Where entry k stands.
pub fn entry_at(k: usize) -> usize
    requires { entry_at k ≤ reach }
    ensures { result ≡ entry_at k }
{
    ENTRIES_AT + ENTRY_SIZE * k
}

// Where descriptor d stands.
pub fn descriptor_at(d: usize) -> usize
    requires { descriptor_at d ≤ reach }
    ensures { result ≡ descriptor_at d }
{
    DESCRIPTORS_AT + DESCRIPTOR_SIZE * d
}
