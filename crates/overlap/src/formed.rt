// A well-formed table, and the first pair of its entries that one moment can match.
ghost use Rattle.std.specs.Prelude.{◌≡◌, ◌+◌, ◌<◌, ◌≤◌, true, length};
ghost use Rattle.paper.specs.Limits.{most_entries, witness_words};
ghost use Rattle.paper.specs.Table.{subject_at, uid_at, entry_at, word, sort_in, entry_count, entry_in};
ghost use Rattle.paper.specs.Table.{pattern_words_in, function_domains_in, well_formed};
ghost use Rattle.paper.specs.Overlap.{witness_uid};
ghost use Rattle.paper.specs.declared.Report.TheVariants.{Clash};
ghost use Rattle.overlap_cells.specs.Best.{Lows};
ghost use Rattle.overlap_meeting.specs.Written.{Written};
ghost use Rattle.overlap.specs.Clash.{apart, may_clash, table_stack};
ghost use Rattle.overlap.specs.Told.{NoneBefore, FirstAfter, FirstOfAll};

use crate::found::Found;
use overlap_cells::Functions;
use paper::Report;
use table::layout;

// The words of the table, and the functions in it.
#[derive(Drop)]
pub struct Formed<'a> {
    words: &'a [u16],
    functions: Functions<'a>,
    pub ghost formed: { well_formed words.now ≡ true },
    pub ghost read: { functions.domains.now ≡ function_domains_in words.now },
}

// Only root against user are apart.
fn uids_apart(a: u16, b: u16) -> bool
    ensures { result ≡ apart (sort_in a) (sort_in b) }
{
    if a == layout::ROOT {
        return layout::USER <= b;
    }
    layout::USER <= a && b == layout::ROOT
}

impl<'a> Formed<'a> {
    // lows: the lowest function of each domain.
    pub fn new(words: &'a [u16], lows: &'a [Option<u16>]) -> Self
        requires formed { well_formed words.now ≡ true }
        requires lowest { Lows (function_domains_in words.now) lows.now }
        ensures { result.words.now ≡ words.now }
    {
        let functions = Functions {
            domains: table::functions(words),
            lows,
        };
        Formed { words, functions }
    }

    // The subject, the uid's sort and the pattern of entry k.
    fn subject_of(&self, k: usize) -> u16
        requires { k ≤ most_entries }
        ensures { result ≡ word self.now.words.now (entry_at k + subject_at) }
    {
        table::word(self.words, layout::entry_at(k) + layout::SUBJECT_AT)
    }

    fn uid_of(&self, k: usize) -> u16
        requires { k ≤ most_entries }
        ensures { result ≡ word self.now.words.now (entry_at k + uid_at) }
    {
        table::word(self.words, layout::entry_at(k) + layout::UID_AT)
    }

    fn pattern_of(&self, k: usize) -> &'a [u16]
        requires { k ≤ most_entries }
        ensures { result.now ≡ pattern_words_in self.now.words.now (entry_at k) }
    {
        table::pattern_at(self.words, layout::entry_at(k))
    }

    // Entries i and j have one subject, and there is a uid for both.
    fn may_clash(&self, i: usize, j: usize) -> bool
        requires { (i ≤ most_entries) × (j ≤ most_entries) }
        ensures { result ≡ may_clash (entry_in self.now.words.now i) (entry_in self.now.words.now j) }
    {
        self.subject_of(i) == self.subject_of(j) && !uids_apart(self.uid_of(i), self.uid_of(j))
    }

    // The stack at which entries i and j clash, to the witness: how many frames it has, where they clash.
    fn write_clash(&self, i: usize, j: usize, witness: &mut [u16]) -> Option<usize>
        requires listed { (i < entry_count self.now.words.now) × (j < entry_count self.now.words.now) }
        requires room { witness_words ≤ length witness.old }
        ensures { Written (table_stack self.now.words.now i j) witness.old witness.new result }
    {
        if !self.may_clash(i, j) {
            overlap_meeting::clear_witness(witness);
            return None;
        }
        let p = self.pattern_of(i);
        let q = self.pattern_of(j);
        let subject = self.subject_of(i);
        overlap_meeting::write_best_stack(&self.functions, subject, p, q, witness)
    }

    // The first entry after entry i that clashes with it.
    fn first_after(&self, i: usize, witness: &mut [u16]) -> Option<Found>
        requires listed { i < entry_count self.now.words.now }
        requires room { witness_words ≤ length witness.old }
        requires none_before { NoneBefore self.now.words.now i 0 }
        ensures { FirstAfter self.now.words.now witness.old witness.new i result }
    {
        for j in i + 1..table::count(self.words, layout::ENTRY_COUNT_AT) {
            if let Some(depth) = self.write_clash(i, j, witness) {
                return Some(Found { higher: j, depth });
            }
        }
        None
    }

    // 1 if either entry says `user`, else 0.
    fn uid_for(&self, i: usize, j: usize) -> u32
        requires { (i ≤ most_entries) × (j ≤ most_entries) }
        ensures { result ≡ witness_uid (entry_in self.now.words.now i) (entry_in self.now.words.now j) }
    {
        if layout::USER <= self.uid_of(i) || layout::USER <= self.uid_of(j) {
            return 1;
        }
        0
    }

    fn clash_of(&self, i: usize, found: Found) -> Report
        requires { (i ≤ most_entries) × (found.higher ≤ most_entries) × (found.depth ≤ witness_words) }
        ensures { result ≡ Clash i found.higher found.depth
            (witness_uid (entry_in self.now.words.now i) (entry_in self.now.words.now found.higher)) 0 0 }
    {
        let uid = self.uid_for(i, found.higher);
        Report::Clash {
            lower: i as u16,
            higher: found.higher as u16,
            depth: found.depth as u16,
            uid,
            gid: 0,
            namespace: 0,
        }
    }

    // The report of the table.
    pub fn first_clash(&self, witness: &mut [u16]) -> Report
        requires { witness_words ≤ length witness.old }
        ensures { FirstOfAll self.now.words.now witness.old witness.new result }
    {
        for i in 0..table::count(self.words, layout::ENTRY_COUNT_AT) {
            if let Some(found) = self.first_after(i, witness) {
                return self.clash_of(i, found);
            }
        }
        overlap_meeting::clear_witness(witness);
        Report::Clear
    }
}
