// A line of the filled text written at the front of what is lent: each function answers how far it wrote. Whoever writes on lends the part
// from there.
#![tactic(auto)]

pub mod page;
pub mod sink;

ghost use Rattle.std.specs.Prelude.{[], ◌∷◌, ◌++◌};
ghost use Rattle.paper.specs.Text.{line_feed};
ghost use Rattle.paper.specs.Listing.{key_at};
ghost use Rattle.paper.specs.Filled.{key_line, bare_line};
ghost use Rattle.text_keys.specs.Rows.{key_text};
ghost use Rattle.filled_lines.specs.Wrote.{Fits, Wrote};
ghost use Rattle.filled_lines.specs.Omitted.{omitted_keys};

use text_bytes::byte;
use text_keys::rows;
use text_keys::rows::Key;

// Bytes as they are. Most are few: the loop calls nothing, so that whoever links this needs no `memmove`.
fn put(s: &[u8], out: &mut [u8]) -> usize
    requires { Fits s.now out.old }
    ensures { Wrote s.now out.old out.new result }
{
    for i in 0..s.len() {
        out[i] = s[i];
    }
    s.len()
}

pub fn put_byte(b: u8, out: &mut [u8]) -> usize
    requires { Fits (b ∷ []) out.old }
    ensures { Wrote (b ∷ []) out.old out.new result }
{
    out[0] = b;
    1
}

fn put_text(key: Key, out: &mut [u8]) -> usize
    requires { Fits (key_text key) out.old }
    ensures { Wrote (key_text key) out.old out.new result }
{
    put(key.look().text, out)
}

// Each key is put by itself: its text is known when this is compiled, and goes in a few large pieces.
#[tactic(auto, using(crate::proofs::Keys::key_fits, crate::proofs::Keys::key_wrote))]
fn put_key(key: Key, out: &mut [u8]) -> usize
    requires { Fits (key_text key) out.old }
    ensures { Wrote (key_text key) out.old out.new result }
{
    match key {
        Key::Nothing => put_text(Key::Nothing, out),
        Key::ObjectMap => put_text(Key::ObjectMap, out),
        Key::Name => put_text(Key::Name, out),
        Key::Objects => put_text(Key::Objects, out),
        Key::SubjectMap => put_text(Key::SubjectMap, out),
        Key::Subjects => put_text(Key::Subjects, out),
        Key::Privileges => put_text(Key::Privileges, out),
        Key::Principal => put_text(Key::Principal, out),
        Key::Subject => put_text(Key::Subject, out),
        Key::ExecutionContext => put_text(Key::ExecutionContext, out),
        Key::CallContext => put_text(Key::CallContext, out),
        Key::Uid => put_text(Key::Uid, out),
        Key::Gid => put_text(Key::Gid, out),
        Key::Namespace => put_text(Key::Namespace, out),
        Key::CanCall => put_text(Key::CanCall, out),
        Key::CanReturn => put_text(Key::CanReturn, out),
        Key::CanRead => put_text(Key::CanRead, out),
        Key::ItemObjects => put_text(Key::ItemObjects, out),
        Key::ObjectContext => put_text(Key::ObjectContext, out),
        Key::CanWrite => put_text(Key::CanWrite, out),
    }
}

// The key of a place.
fn key_at(place: usize, out: &mut [u8]) -> usize
    requires { Fits (key_at place) out.old }
    ensures { Wrote (key_at place) out.old out.new result }
{
    let key = rows::row_at(place).key;
    put_key(key, out)
}

// The keys of a context that has none of them.
pub fn omitted_keys(out: &mut [u8]) -> usize
    requires { Fits omitted_keys out.old }
    ensures { Wrote omitted_keys out.old out.new result }
{
    put(
        b"      call_context: [all]\n      uid: all\n      gid: all\n      namespace: all\n",
        out,
    )
}

pub fn bare_line(place: usize, out: &mut [u8]) -> usize
    requires { Fits (bare_line place) out.old }
    ensures { Wrote (bare_line place) out.old out.new result }
{
    let end = key_at(place, out);
    end + put_byte(byte::LINE_FEED, &mut out[end..])
}

// A value, to the end of its line.
fn end_line(v: &[u8], out: &mut [u8]) -> usize
    requires { Fits (v.now ++ (line_feed ∷ [])) out.old }
    ensures { Wrote (v.now ++ (line_feed ∷ [])) out.old out.new result }
{
    let end = put(v, out);
    end + put_byte(byte::LINE_FEED, &mut out[end..])
}

pub fn key_line(place: usize, v: &[u8], out: &mut [u8]) -> usize
    requires { Fits (key_line place v.now) out.old }
    ensures { Wrote (key_line place v.now) out.old out.new result }
{
    let a = key_at(place, out);
    let b = a + put_byte(byte::SPACE, &mut out[a..]);
    b + end_line(v, &mut out[b..])
}
