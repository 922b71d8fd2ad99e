// What a field's value holds: `all`, the elements of a list, the sort of a uid or gid.
ghost use Rattle.std.specs.Prelude.{◌≡◌, ◌+◌, ◌≤◌, length, count_by};
ghost use Rattle.paper.specs.Common.{is};
ghost use Rattle.paper.specs.Scalars.{sort_number, sort_of};
ghost use Rattle.paper.specs.Lists.{elements};
ghost use Rattle.file_fields.specs.Values.{block, is_comma, inside_of};

use table::layout;
use text_bytes::byte;
use text_lists::is_all;

fn is_root(v: &[u8]) -> bool
    ensures { result ≡ is "root" v.now }
{
    text_bytes::same(b"root", v)
}

fn is_user(v: &[u8]) -> bool
    ensures { result ≡ is "user" v.now }
{
    text_bytes::same(b"user", v)
}

// The number of the sort that a value says.
pub fn sort_of(v: &[u8]) -> u16
    ensures { result ≡ sort_number (sort_of v.now) }
{
    if is_all(v) {
        return layout::ANYONE;
    }
    if is_root(v) {
        return layout::ROOT;
    }
    if is_user(v) {
        return layout::USER;
    }
    layout::VARIABLE
}

// What stands between the brackets of a list; of any other value, nothing.
pub fn inside(v: &[u8]) -> &[u8]
    ensures { result.now ≡ inside_of v.now }
{
    if text_lists::bracketed(v) {
        &v[1..v.len() - 1]
    } else {
        &[]
    }
}

// So many bytes are counted at a time.
const BLOCK: usize = 32768;

// The commas of a block. The loop has no exit and counts in sixteen bits, so that it takes many bytes at a time.
fn block_commas(s: &[u8]) -> u16
    requires { length s.now ≤ block }
    ensures { result ≡ count_by is_comma s.now }
{
    let mut count: u16 = 0;
    for b in s {
        count += u16::from(*b == byte::COMMA);
    }
    count
}

fn comma_count(s: &[u8]) -> usize
    ensures { result ≡ count_by is_comma s.now }
{
    let mut count: usize = 0;
    for block in s.chunks(BLOCK) {
        count += block_commas(block) as usize;
    }
    count
}

// How many elements a list has.
pub fn element_count(v: &[u8]) -> usize
    ensures { (result ≡ length (elements v.now)) × (result ≤ length v.now + 1) }
{
    let s = inside(v);
    if s.len() == 0 {
        return 0;
    }
    comma_count(s) + 1
}
