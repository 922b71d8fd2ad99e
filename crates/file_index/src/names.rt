// The names that an index knows, and the way to one of them.
ghost use Rattle.std.specs.Prelude.{◌≡◌, ◌+◌, ◌*◌, ◌<◌, ◌≤◌, length};
ghost use Rattle.file_index.specs.Words.{names_at, name_size, multiplier_in};
ghost use Rattle.file_index.specs.Buckets.{hash_of, is_name, way_end, Within, numbers_in};

use crate::{bucket, hash, layout, turn};

// Where the way of a name ends: at that name, by its number, or at a word that a link to it can be put into.
#[derive(Clone, Copy)]
pub enum Place {
    Found(usize),
    Free(usize),
}

// So many names of a text, with the words of the index that they are found by.
#[derive(Clone, Copy)]
pub struct Names<'a> {
    pub index: &'a [usize],
    pub count: usize,
    ghost room: { names_at + name_size * count ≤ length index.now },
}

impl<'a> Names<'a> {
    // Name k is this one, whose hash is h. Hashes are compared first since they nearly always tell.
    fn is_name(self, t: &[u8], h: usize, name: &[u8], k: usize) -> bool
        requires { k < self.count }
        ensures { result ≡ is_name t.now self.entry.index.now h name.now k }
    {
        let at = layout::NAMES_AT + layout::NAME_SIZE * k;
        if self.index[at + layout::HASH_AT] != h {
            return false;
        }
        let start = self.index[at + layout::START_AT];
        let end = self.index[at + layout::END_AT];
        let stretch = text_bytes::part(t, start, end);
        text_bytes::same(stretch, name)
    }

    // Where the way of a name with its hash ends. Each link goes to a later name: so every way ends, whatever the words say.
    pub fn way_end(self, t: &[u8], h: usize, name: &[u8]) -> Place
        ensures value { result ≡ way_end t.now self.entry.index.now self.entry.count h name.now }
        ensures within { Within self.entry.count result }
    {
        let mut w = layout::HEADS_AT + bucket(h);
        let mut last: usize = 0;
        let mut d: usize = 0;
        loop {
            let i = self.index[w];
            if i <= last {
                return Place::Free(w);
            }
            if self.count < i {
                return Place::Free(w);
            }
            let k = i - 1;
            if self.is_name(t, h, name, k) {
                return Place::Found(k);
            }
            w = layout::NAMES_AT + layout::NAME_SIZE * k + layout::LINKS_AT + turn(name, d);
            last = i;
            d += 1;
        }
    }

    pub fn multiplier(self) -> usize
        ensures { result ≡ multiplier_in self.entry.index.now }
    {
        self.index[layout::MULTIPLIER_AT]
    }

    pub fn hash(self, name: &[u8]) -> usize
        ensures { result ≡ hash_of (multiplier_in self.entry.index.now) name.now }
    {
        hash(self.multiplier(), name)
    }

    // The number of a name; how many there are where it is none of them.
    pub fn number_in(self, t: &[u8], name: &[u8]) -> usize
        ensures { (result ≡ numbers_in t.now self.entry.index.now self.entry.count name.now) × (result ≤ self.entry.count) }
    {
        self.number_hashed(t, self.hash(name), name)
    }

    // The number of a name whose hash h is known; how many names there are where it is none of them.
    pub fn number_hashed(self, t: &[u8], h: usize, name: &[u8]) -> usize
        requires { h ≡ hash_of (multiplier_in self.index.now) name.now }
        ensures { (result ≡ numbers_in t.now self.entry.index.now self.entry.count name.now) × (result ≤ self.entry.count) }
    {
        match self.way_end(t, h, name) {
            Place::Found(k) => k,
            Place::Free(_) => self.count,
        }
    }
}
