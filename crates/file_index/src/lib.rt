// Names of a text found through buckets. An index is one lent slice of numbers; a name in it is a stretch of the text, and the
// names whose hashes fall together are a tree, through which each goes its way by its bytes, from the last to the first, two bits a turn.
// Names that differ part at one of these turns: so no way is long, whatever the text. Links are names' numbers plus 1: 0 is none.
#![tactic(auto)]

pub mod layout;
pub mod maps;
pub mod names;

ghost use Rattle.std.specs.Prelude.{◌≡◌, ◌+◌, ◌*◌, ◌/◌, ◌<◌, ◌≤◌, length, drop};
ghost use Rattle.file_index.specs.Words.{buckets, names_at, name_size, links};
ghost use Rattle.file_index.specs.Buckets.{multipliers, hashes, hash_from, hash_of, two_at, bucket_of, turn_of, inserted_at};

// The multiplier of hashes: whoever clears an index puts it into its first word.
pub const MULTIPLIER: usize = 65599;

pub const MULTIPLIERS: usize = 1048576;

pub const HASHES: usize = 4294967296;

const SPREAD: usize = 2654435769;

const BUCKET_SIZE: usize = 4194304;

// Two bytes as one number.
fn two_at(step: usize, name: &[u8], i: usize) -> usize
    requires { (i + 2 ≤ length name.now) × (step < multipliers) }
    ensures { (result ≡ two_at step name.now i) × (result < hashes) }
{
    (name[i] as usize) * step + (name[i + 1] as usize)
}

// The hash of all but the last bytes, less than four. Four are taken at a time, by powers of the multiplier: so they do not wait for one another.
fn hash_fours(m: usize, name: &[u8]) -> usize
    ensures { (hash_from m result (drop (length name.now / 4 * 4) name.now) ≡ hash_of m name.now) × (result < hashes) }
{
    let step = m % MULTIPLIERS;
    let square = step * step % HASHES;
    let fourth = square * square % HASHES;
    let mut h: usize = 0;
    for k in 0..name.len() / 4 {
        let i = 4 * k;
        let front = h * fourth % HASHES + two_at(step, name, i) * square % HASHES;
        h = (front + two_at(step, name, i + 2)) % HASHES;
    }
    h
}

pub fn hash(m: usize, name: &[u8]) -> usize
    ensures { (result ≡ hash_of m name.now) × (result < hashes) }
{
    let step = m % MULTIPLIERS;
    let mut h = hash_fours(m, name);
    for b in &name[name.len() / 4 * 4..] {
        h = (h * step + (*b as usize)) % HASHES;
    }
    h
}

pub(crate) fn bucket(h: usize) -> usize
    ensures { (result ≡ bucket_of h) × (result < buckets) }
{
    h % HASHES * SPREAD % HASHES / BUCKET_SIZE
}

// Turn d of the way of a name, one of four: two bits of a byte, from its last byte to its first. Behind them all turns are 0.
pub(crate) fn turn(name: &[u8], d: usize) -> usize
    ensures { (result ≡ turn_of name.now d) × (result < links) }
{
    let back = d / 4;
    if name.len() <= back {
        return 0;
    }
    ((name[name.len() - 1 - back] as usize) >> (d % 4 * 2)) % 4
}

// Name n goes in, its link into word w. Its own links are 0 already: behind the names an index has no other words.
pub fn insert(ix: &mut [usize], n: usize, w: usize, start: usize, end: usize, h: usize)
    requires n_in_bounds { names_at + name_size * (n + 1) ≤ length ix.old }
    requires w_bound { w < names_at + name_size * n }
    ensures { ix.new ≡ inserted_at ix.old n w start end h }
{
    let at = layout::NAMES_AT + layout::NAME_SIZE * n;
    ix[at + layout::START_AT] = start;
    ix[at + layout::END_AT] = end;
    ix[at + layout::HASH_AT] = h;
    ix[w] = n + 1;
}
