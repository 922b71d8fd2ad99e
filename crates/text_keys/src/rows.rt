// The rows of the listing. A place that the listing does not have has an empty row.
ghost use Rattle.std.specs.Prelude.{◌≡◌, true, false, []};
ghost use Rattle.paper.specs.declared.Value.TheVariants.{Keys, NoneOrItems, AllOrKeys, AllNoneOrItems};
ghost use Rattle.paper.specs.Text.{column};
ghost use Rattle.paper.specs.Listing.{row_at, dashed};
ghost use Rattle.text_keys.specs.Rows.{key_text, seen, told};

use paper::{Scalar, Value};

// The places, numbered as in the paper: places in a context or an item are sums.
pub const NOWHERE: usize = 0;

pub const OBJECT_MAP: usize = 1;

pub const OBJECT_NAME: usize = 2;

pub const OBJECT_MEMBERS: usize = 3;

pub const SUBJECT_MAP: usize = 4;

pub const SUBJECT_NAME: usize = 5;

pub const SUBJECT_MEMBERS: usize = 6;

pub const PRIVILEGES: usize = 7;

pub const PRINCIPAL: usize = 8;

pub const SUBJECT: usize = 9;

pub const EXECUTION_CONTEXT: usize = 10;

// A context's keys stand behind it.
pub const CALL_CONTEXT: usize = 1;

pub const UID: usize = 2;

pub const GID: usize = 3;

pub const NAMESPACE: usize = 4;

const CONTEXT_PLACES: usize = 5;

// Behind `can_read` or `can_write` stand an item's `objects` and its context.
pub const ITEM_OBJECTS: usize = 1;

pub const ITEM_CONTEXT: usize = 2;

pub const EXECUTION_CALL_CONTEXT: usize = EXECUTION_CONTEXT + CALL_CONTEXT;

pub const EXECUTION_UID: usize = EXECUTION_CONTEXT + UID;

pub const EXECUTION_GID: usize = EXECUTION_CONTEXT + GID;

pub const EXECUTION_NAMESPACE: usize = EXECUTION_CONTEXT + NAMESPACE;

pub const CAN_CALL: usize = EXECUTION_CONTEXT + CONTEXT_PLACES;

pub const CAN_RETURN: usize = CAN_CALL + 1;

pub const CAN_READ: usize = CAN_RETURN + 1;

pub const READ_OBJECTS: usize = CAN_READ + ITEM_OBJECTS;

pub const READ_CONTEXT: usize = CAN_READ + ITEM_CONTEXT;

pub const READ_CALL_CONTEXT: usize = READ_CONTEXT + CALL_CONTEXT;

pub const READ_UID: usize = READ_CONTEXT + UID;

pub const READ_GID: usize = READ_CONTEXT + GID;

pub const READ_NAMESPACE: usize = READ_CONTEXT + NAMESPACE;

pub const CAN_WRITE: usize = READ_CONTEXT + CONTEXT_PLACES;

pub const WRITE_OBJECTS: usize = CAN_WRITE + ITEM_OBJECTS;

pub const WRITE_CONTEXT: usize = CAN_WRITE + ITEM_CONTEXT;

pub const WRITE_CALL_CONTEXT: usize = WRITE_CONTEXT + CALL_CONTEXT;

pub const WRITE_UID: usize = WRITE_CONTEXT + UID;

pub const WRITE_GID: usize = WRITE_CONTEXT + GID;

pub const WRITE_NAMESPACE: usize = WRITE_CONTEXT + NAMESPACE;

// What may follow the fields of an entry, from the last to the first.
const AFTER_WRITE: &[usize] = &[PRINCIPAL];

const AFTER_WRITE_CONTEXT: &[usize] = &[WRITE_OBJECTS, PRINCIPAL];

const AFTER_WRITE_GID: &[usize] = &[WRITE_NAMESPACE, WRITE_OBJECTS, PRINCIPAL];

const AFTER_WRITE_UID: &[usize] = &[WRITE_GID, WRITE_NAMESPACE, WRITE_OBJECTS, PRINCIPAL];

const AFTER_WRITE_CALL: &[usize] = &[
    WRITE_UID,
    WRITE_GID,
    WRITE_NAMESPACE,
    WRITE_OBJECTS,
    PRINCIPAL,
];

const AFTER_WRITE_OBJECTS: &[usize] = &[WRITE_CONTEXT, WRITE_OBJECTS, PRINCIPAL];

const AFTER_READ: &[usize] = &[CAN_WRITE, PRINCIPAL];

const AFTER_READ_CONTEXT: &[usize] = &[READ_OBJECTS, CAN_WRITE, PRINCIPAL];

const AFTER_READ_GID: &[usize] = &[READ_NAMESPACE, READ_OBJECTS, CAN_WRITE, PRINCIPAL];

const AFTER_READ_UID: &[usize] = &[READ_GID, READ_NAMESPACE, READ_OBJECTS, CAN_WRITE, PRINCIPAL];

const AFTER_READ_CALL: &[usize] = &[
    READ_UID,
    READ_GID,
    READ_NAMESPACE,
    READ_OBJECTS,
    CAN_WRITE,
    PRINCIPAL,
];

const AFTER_READ_OBJECTS: &[usize] = &[READ_CONTEXT, READ_OBJECTS, CAN_WRITE, PRINCIPAL];

const AFTER_RETURN: &[usize] = &[CAN_READ, CAN_WRITE, PRINCIPAL];

const AFTER_CALL: &[usize] = &[CAN_RETURN, CAN_READ, CAN_WRITE, PRINCIPAL];

const AFTER_EXECUTION_CONTEXT: &[usize] = &[CAN_CALL, CAN_RETURN, CAN_READ, CAN_WRITE, PRINCIPAL];

const AFTER_EXECUTION_GID: &[usize] = &[
    EXECUTION_NAMESPACE,
    CAN_CALL,
    CAN_RETURN,
    CAN_READ,
    CAN_WRITE,
    PRINCIPAL,
];

const AFTER_EXECUTION_UID: &[usize] = &[
    EXECUTION_GID,
    EXECUTION_NAMESPACE,
    CAN_CALL,
    CAN_RETURN,
    CAN_READ,
    CAN_WRITE,
    PRINCIPAL,
];

const AFTER_EXECUTION_CALL: &[usize] = &[
    EXECUTION_UID,
    EXECUTION_GID,
    EXECUTION_NAMESPACE,
    CAN_CALL,
    CAN_RETURN,
    CAN_READ,
    CAN_WRITE,
    PRINCIPAL,
];

const AFTER_SUBJECT: &[usize] = &[
    EXECUTION_CONTEXT,
    CAN_CALL,
    CAN_RETURN,
    CAN_READ,
    CAN_WRITE,
    PRINCIPAL,
];

// What may follow a map's lists, and what the blocks of the contexts begin with.
const AFTER_OBJECT_MEMBERS: &[usize] = &[OBJECT_NAME, SUBJECT_MAP];

const AFTER_SUBJECT_MEMBERS: &[usize] = &[SUBJECT_NAME, PRIVILEGES];

const EXECUTION_KEYS: &[usize] = &[
    EXECUTION_CALL_CONTEXT,
    EXECUTION_UID,
    EXECUTION_GID,
    EXECUTION_NAMESPACE,
];

const READ_KEYS: &[usize] = &[READ_CALL_CONTEXT, READ_UID, READ_GID, READ_NAMESPACE];

const WRITE_KEYS: &[usize] = &[WRITE_CALL_CONTEXT, WRITE_UID, WRITE_GID, WRITE_NAMESPACE];

// The keys of the listing.
#[derive(Clone, Copy)]
pub enum Key {
    Nothing,
    ObjectMap,
    Name,
    Objects,
    SubjectMap,
    Subjects,
    Privileges,
    Principal,
    Subject,
    ExecutionContext,
    CallContext,
    Uid,
    Gid,
    Namespace,
    CanCall,
    CanReturn,
    CanRead,
    ItemObjects,
    ObjectContext,
    CanWrite,
}

// The columns that keys stand at.
const TOP: usize = 0;

const IN_ITEM: usize = 2;

const IN_PRINCIPAL: usize = 4;

const IN_CONTEXT: usize = 6;

// How a key looks: its text, with its column, its dash and its colon, and no LF; and the column and the dash by themselves, which are
// asked of every line that may begin a block, and would take a walk over the text to find.
#[derive(Clone, Copy)]
pub struct Look {
    pub text: &'static [u8],
    pub column: usize,
    pub dash: bool,
}

fn plain(column: usize, text: &'static [u8]) -> Look
    ensures { (result.text.now ≡ text.now) × (result.column ≡ column) × (result.dash ≡ false) }
{
    Look {
        text,
        column,
        dash: false,
    }
}

// The first key of an item.
fn item(column: usize, text: &'static [u8]) -> Look
    ensures { (result.text.now ≡ text.now) × (result.column ≡ column) × (result.dash ≡ true) }
{
    Look {
        text,
        column,
        dash: true,
    }
}

impl Key {
    pub fn look(self) -> Look
        ensures text { result.text.now ≡ key_text self }
        ensures stands { (result.column ≡ column (key_text self)) × (result.dash ≡ dashed (key_text self)) }
    {
        match self {
            Key::Nothing => plain(TOP, b""),
            Key::ObjectMap => plain(TOP, b"object_map:"),
            Key::Name => item(TOP, b"- name:"),
            Key::Objects => plain(IN_ITEM, b"  objects:"),
            Key::SubjectMap => plain(TOP, b"subject_map:"),
            Key::Subjects => plain(IN_ITEM, b"  subjects:"),
            Key::Privileges => plain(TOP, b"privileges:"),
            Key::Principal => item(TOP, b"- principal:"),
            Key::Subject => plain(IN_PRINCIPAL, b"    subject:"),
            Key::ExecutionContext => plain(IN_PRINCIPAL, b"    execution_context:"),
            Key::CallContext => plain(IN_CONTEXT, b"      call_context:"),
            Key::Uid => plain(IN_CONTEXT, b"      uid:"),
            Key::Gid => plain(IN_CONTEXT, b"      gid:"),
            Key::Namespace => plain(IN_CONTEXT, b"      namespace:"),
            Key::CanCall => plain(IN_ITEM, b"  can_call:"),
            Key::CanReturn => plain(IN_ITEM, b"  can_return:"),
            Key::CanRead => plain(IN_ITEM, b"  can_read:"),
            Key::ItemObjects => item(IN_ITEM, b"  - objects:"),
            Key::ObjectContext => plain(IN_PRINCIPAL, b"    object_context:"),
            Key::CanWrite => plain(IN_ITEM, b"  can_write:"),
        }
    }
}

// A row of the listing: its key, what its field takes, the places that its block may begin with, those that may follow, and whether the
// text may end with it.
#[derive(Clone, Copy)]
pub struct Row {
    pub key: Key,
    pub value: Value,
    pub block: &'static [usize],
    pub next: &'static [usize],
    pub last: bool,
}

const NAME: Value = Value::One(Scalar::DomainName);

const NAMES: Value = Value::ListOrAll(Scalar::DomainName);

const OBJECTS: Value = Value::ListOf(Scalar::ObjectIdentifier);

const SUBJECTS: Value = Value::ListOf(Scalar::SubjectIdentifier);

const PATTERN: Value = Value::SomeOf(Scalar::PatternElement);

const UID_VALUE: Value = Value::One(Scalar::UidValue);

const GID_VALUE: Value = Value::One(Scalar::GidValue);

// A field with which the text may not end.
fn required(key: Key, value: Value, next: &'static [usize]) -> Row
    ensures { seen result ≡ record { key = key_text key; value = value; block = []; next = next.now; last = false } }
{
    Row {
        key,
        value,
        block: &[],
        next,
        last: false,
    }
}

// `[]` or items.
fn items(key: Key, block: &'static [usize], next: &'static [usize], last: bool) -> Row
    ensures { seen result ≡ record { key = key_text key; value = NoneOrItems; block = block.now; next = next.now; last = last } }
{
    Row {
        block,
        last,
        ..required(key, Value::NoneOrItems, next)
    }
}

// A block and nothing else.
fn block(key: Key, block: &'static [usize]) -> Row
    ensures { seen result ≡ record { key = key_text key; value = Keys; block = block.now; next = []; last = false } }
{
    Row {
        block,
        ..required(key, Value::Keys, &[])
    }
}

// A field of an entry.
fn field(key: Key, value: Value, next: &'static [usize]) -> Row
    ensures { seen result ≡ record { key = key_text key; value = value; block = []; next = next.now; last = true } }
{
    Row {
        last: true,
        ..required(key, value, next)
    }
}

// `all` or a block of keys.
fn context(key: Key, block: &'static [usize], next: &'static [usize]) -> Row
    ensures { seen result ≡ record { key = key_text key; value = AllOrKeys; block = block.now; next = next.now; last = true } }
{
    Row {
        block,
        ..field(key, Value::AllOrKeys, next)
    }
}

// `all`, `[]` or items.
fn access(key: Key, block: &'static [usize], next: &'static [usize]) -> Row
    ensures { seen result ≡ record { key = key_text key; value = AllNoneOrItems; block = block.now; next = next.now; last = true } }
{
    Row {
        block,
        ..field(key, Value::AllNoneOrItems, next)
    }
}

pub fn row_at(place: usize) -> Row
    ensures { seen result ≡ told (row_at place) }
{
    match place {
        NOWHERE => required(Key::Nothing, Value::Keys, &[OBJECT_MAP]),
        OBJECT_MAP => items(Key::ObjectMap, &[OBJECT_NAME], &[SUBJECT_MAP], false),
        OBJECT_NAME => required(Key::Name, NAME, &[OBJECT_MEMBERS]),
        OBJECT_MEMBERS => required(Key::Objects, OBJECTS, AFTER_OBJECT_MEMBERS),
        SUBJECT_MAP => items(Key::SubjectMap, &[SUBJECT_NAME], &[PRIVILEGES], false),
        SUBJECT_NAME => required(Key::Name, NAME, &[SUBJECT_MEMBERS]),
        SUBJECT_MEMBERS => required(Key::Subjects, SUBJECTS, AFTER_SUBJECT_MEMBERS),
        PRIVILEGES => items(Key::Privileges, &[PRINCIPAL], &[], true),
        PRINCIPAL => block(Key::Principal, &[SUBJECT]),
        SUBJECT => field(Key::Subject, NAME, AFTER_SUBJECT),
        EXECUTION_CONTEXT => context(
            Key::ExecutionContext,
            EXECUTION_KEYS,
            AFTER_EXECUTION_CONTEXT,
        ),
        EXECUTION_CALL_CONTEXT => field(Key::CallContext, PATTERN, AFTER_EXECUTION_CALL),
        EXECUTION_UID => field(Key::Uid, UID_VALUE, AFTER_EXECUTION_UID),
        EXECUTION_GID => field(Key::Gid, GID_VALUE, AFTER_EXECUTION_GID),
        EXECUTION_NAMESPACE => field(Key::Namespace, GID_VALUE, AFTER_EXECUTION_CONTEXT),
        CAN_CALL => field(Key::CanCall, NAMES, AFTER_CALL),
        CAN_RETURN => field(Key::CanReturn, NAMES, AFTER_RETURN),
        CAN_READ => access(Key::CanRead, &[READ_OBJECTS], AFTER_READ),
        READ_OBJECTS => field(Key::ItemObjects, NAMES, AFTER_READ_OBJECTS),
        READ_CONTEXT => context(Key::ObjectContext, READ_KEYS, AFTER_READ_CONTEXT),
        READ_CALL_CONTEXT => field(Key::CallContext, PATTERN, AFTER_READ_CALL),
        READ_UID => field(Key::Uid, UID_VALUE, AFTER_READ_UID),
        READ_GID => field(Key::Gid, GID_VALUE, AFTER_READ_GID),
        READ_NAMESPACE => field(Key::Namespace, GID_VALUE, AFTER_READ_CONTEXT),
        CAN_WRITE => access(Key::CanWrite, &[WRITE_OBJECTS], AFTER_WRITE),
        WRITE_OBJECTS => field(Key::ItemObjects, NAMES, AFTER_WRITE_OBJECTS),
        WRITE_CONTEXT => context(Key::ObjectContext, WRITE_KEYS, AFTER_WRITE_CONTEXT),
        WRITE_CALL_CONTEXT => field(Key::CallContext, PATTERN, AFTER_WRITE_CALL),
        WRITE_UID => field(Key::Uid, UID_VALUE, AFTER_WRITE_UID),
        WRITE_GID => field(Key::Gid, GID_VALUE, AFTER_WRITE_GID),
        WRITE_NAMESPACE => field(Key::Namespace, GID_VALUE, AFTER_WRITE_CONTEXT),
        _ => required(Key::Nothing, Value::Keys, &[]),
    }
}
