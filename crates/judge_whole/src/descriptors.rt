// The descriptors of an entry.
#![tactic(auto)]

ghost use Rattle.std.specs.Prelude.{◌≡◌, ◌+◌, ◌*◌, ◌≤◌, cond};
ghost use Rattle.paper.specs.Table.{entry_at, first_descriptor};
ghost use Rattle.table.specs.Reach.{reach, word_values};

use judge_match::reading::Reading;
use table::layout;

// So many from the first on.
#[derive(Clone, Copy)]
pub struct Asked {
    pub first: usize,
    pub count: usize,
}

// Where they begin, how many are for reads, and how many behind these for writes.
#[derive(Clone, Copy)]
pub struct Descriptors {
    pub first: usize,
    pub reads: usize,
    pub writes: usize,
    ghost near: { first + (reads + writes) ≤ reach },
}

impl Descriptors {
    ghost use Rattle.judge_whole.specs.Descriptors.{Describes};

    // Those of entry k, before which so many descriptors stand.
    pub fn of_entry<R: Reading>(t: &[u16], k: usize, before: usize) -> Descriptors
        requires k_bound { k ≤ word_values }
        requires before_value { (before ≡ first_descriptor t.now k) × (before ≤ 2 * word_values * k) }
        requires there { R.may_read t.now (entry_at (k + 1)) }
        ensures { Describes t.now k result }
    {
        let at = layout::entry_at(k);
        Descriptors {
            first: before,
            reads: R::word(t, at + layout::READS_AT) as usize,
            writes: R::word(t, at + layout::WRITES_AT) as usize,
        }
    }

    // Where those of the next entry begin.
    pub fn end(self) -> usize
        ensures { result ≡ self.first + (self.reads + self.writes) }
    {
        self.first + (self.reads + self.writes)
    }

    // Those that are asked for a read, or for a write.
    pub fn asked<const WRITE: bool>(self) -> Asked
        ensures { (result.first ≡ self.first + cond WRITE self.reads 0) × (result.count ≡ cond WRITE self.writes self.reads) }
    {
        if WRITE {
            return Asked {
                first: self.first + self.reads,
                count: self.writes,
            };
        }
        Asked {
            first: self.first,
            count: self.reads,
        }
    }
}
