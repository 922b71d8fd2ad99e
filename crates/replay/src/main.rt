// Judges the trials of document 01 and tells each verdict in words; then replays the stored cases and tells how many answers
// differ from those stored. What the bytes of the files mean: data/README.md.
#![tactic(auto)]

use export_packed::class;
use input::read_all;
use std::fs::File;
use std::{array, io};

// More bytes than a file has, more words than a table has.
const FILE_BYTES: usize = 300000;

const TABLE_WORDS: usize = 65536;

// A stack of more frames is as good as one of so many: both are refused.
const STACK_WORDS: usize = 128;

// What is lent to be written holds this before the call.
const UNTOUCHED: u8 = 7;

// At least as many as are lent: words of the witness, words for a table, bytes for a filled text, words for a list.
const WITNESS_WORDS: usize = 64;

const LENT_WORDS: usize = 16640;

const LENT_BYTES: usize = 65600;

const LIST_WORDS: usize = 9984;

// The first so many, or all where there are fewer.
fn front<T>(all: &mut [T], n: usize) -> &mut [T] {
    let end = n.min(all.len());
    &mut all[..end]
}

// What was lent holds these, and behind them what it held before.
fn holds<W: Copy + PartialEq + From<u8>>(lent: &[W], written: &[W]) -> bool {
    let untouched = W::from(UNTOUCHED);
    lent.strip_prefix(written)
        .is_some_and(|behind| behind.iter().all(|w| *w == untouched))
}

// What is still to be read of a file. Past its end every byte is 0.
#[derive(Drop)]
struct Bytes<'a> {
    rest: &'a [u8],
}

// A number of a file, the low byte first.
trait Number: Copy {
    fn next(file: &mut Bytes) -> Self;
}

impl Number for u16 {
    fn next(file: &mut Bytes) -> u16 {
        u16::from_le_bytes(file.bytes())
    }
}

impl Number for u32 {
    fn next(file: &mut Bytes) -> u32 {
        u32::from_le_bytes(file.bytes())
    }
}

impl Number for u64 {
    fn next(file: &mut Bytes) -> u64 {
        u64::from_le_bytes(file.bytes())
    }
}

impl<'a> Bytes<'a> {
    fn byte(&mut self) -> u8 {
        self.rest.split_off_first().copied().unwrap_or(0)
    }

    fn bytes<const N: usize>(&mut self) -> [u8; N] {
        array::from_fn(|_| self.byte())
    }

    fn number<N: Number>(&mut self) -> N {
        N::next(self)
    }

    // So many bytes, or as many as there are.
    fn stretch(&mut self, n: usize) -> &'a [u8] {
        let (front, behind) = self.rest.split_at(n.min(self.rest.len()));
        self.rest = behind;
        front
    }

    // A text, behind its length.
    fn text(&mut self) -> &'a [u8] {
        let n: u32 = self.number();
        self.stretch(n as usize)
    }

    // So many words, which go to the front of the room. What finds no place there is passed over.
    fn words<'t, W: Number>(&mut self, n: usize, room: &'t mut [W]) -> &'t mut [W] {
        for i in 0..n {
            let w = self.number();
            if let Some(place) = room.get_mut(i) {
                *place = w;
            }
        }
        front(room, n)
    }

    // A count, and so many words.
    fn counted<'t>(&mut self, room: &'t mut [u16]) -> &'t mut [u16] {
        let n: u16 = self.number();
        self.words(usize::from(n), room)
    }

    // A table, run by run.
    fn table<'t>(&mut self, room: &'t mut [u16]) -> &'t mut [u16] {
        let size: u32 = self.number();
        let runs: u16 = self.number();
        for _ in 0..runs {
            let first: u16 = self.number();
            let at = usize::from(first).min(room.len());
            self.counted(&mut room[at..]);
        }
        front(room, size as usize)
    }
}

// How many cases there were, and how many answers differ from the one stored.
#[derive(Clone, Copy, Default)]
struct Tally {
    cases: u32,
    differ: u32,
}

impl Tally {
    fn count(&mut self, same: bool) {
        self.cases = self.cases.saturating_add(1);
        self.differ = self.differ.saturating_add(u32::from(!same));
    }
}

// The verdict on the next event.
fn judged(file: &mut Bytes, table: &[u16]) -> u32 {
    let mut stack = [0u16; STACK_WORDS];
    let mut allocation = [0u16; STACK_WORDS];
    let operation = file.number();
    let target = file.number();
    let uid = file.number();
    let gid = file.number();
    let namespace = file.number();
    let allocation_uid = file.number();
    let allocation_gid = file.number();
    let allocation_namespace = file.number();
    let stack = file.counted(&mut stack);
    let allocation = file.counted(&mut allocation);
    export::dovetenon_judge(
        table,
        operation,
        target,
        stack,
        uid,
        gid,
        namespace,
        allocation,
        allocation_uid,
        allocation_gid,
        allocation_namespace,
    )
}

// A verdict in words: bits 16 to 31 are its class, bits 0 to 15 its value.
fn tell(rt: &HostRuntime, verdict: u32) -> io::Result<()> {
    let value = verdict % 65536;
    match (verdict >> 16) as u16 {
        class::INSIDE => println!(rt; "allowed inside one domain"),
        class::GRANTED => println!(rt; "allowed by entry {value}"),
        class::VIOLATION => println!(rt; "violation {value}"),
        _ => println!(rt; "refused, {value}"),
    }
}

// A table and its events; each verdict is told.
fn replay_table<F: Fn(u32) -> io::Result<()>>(
    file: &mut Bytes,
    tally: &mut Tally,
    tell: F,
) -> io::Result<()>
    requires { F.IsAlwaysCallable tell }
{
    let mut table = [0u16; TABLE_WORDS];
    let table = file.table(&mut table);
    let events: u32 = file.number();
    for _ in 0..events {
        let verdict = judged(file, table);
        tell(verdict)?;
        tally.count(verdict == file.number());
    }
    Ok(())
}

// A table and the report of it.
fn same_report(file: &mut Bytes) -> bool {
    let mut table = [0u16; TABLE_WORDS];
    let mut witness = [u16::from(UNTOUCHED); WITNESS_WORDS];
    let mut stored = [0u16; WITNESS_WORDS];
    let table = file.table(&mut table);
    let lent: u16 = file.number();
    let answer = export::dovetenon_overlap(table, front(&mut witness, usize::from(lent)));
    let same = answer == file.number();
    same & holds(&witness, file.counted(&mut stored))
}

// A text and the answer to its page.
fn same_page(file: &mut Bytes) -> bool {
    export::dovetenon_page(file.text()) == file.number()
}

// A text, the answer to it, and the table that it is read into: the words behind those that are stored stay as they were.
fn same_reading(file: &mut Bytes) -> bool {
    let mut table = [u16::from(UNTOUCHED); LENT_WORDS];
    let mut stored = [0u16; LENT_WORDS];
    let text = file.text();
    let lent: u16 = file.number();
    let answer = export::dovetenon_read(text, front(&mut table, usize::from(lent)));
    let same = answer == file.number();
    same & holds(&table, file.table(&mut stored))
}

// A text, the answer to it, and the bytes that are written: those behind them stay as they were.
fn same_filling(file: &mut Bytes) -> bool {
    let mut out = [UNTOUCHED; LENT_BYTES];
    let text = file.text();
    let lent: u32 = file.number();
    let answer = export::dovetenon_fill(text, front(&mut out, lent as usize));
    let same = answer == file.number();
    same & holds(&out, file.text())
}

// A text, the numbers of a map and a domain, and where the name stands.
fn same_name(file: &mut Bytes) -> bool {
    let text = file.text();
    let map: u16 = file.number();
    let domain: u64 = file.number();
    export::dovetenon_name(text, map, domain as usize) == file.number()
}

// A text, the answer to it, and the words that are written: those behind them stay as they were.
fn same_listing(file: &mut Bytes) -> bool {
    let mut list = [u32::from(UNTOUCHED); LIST_WORDS];
    let mut stored = [0u32; LIST_WORDS];
    let text = file.text();
    let lent: u32 = file.number();
    let answer = export::dovetenon_list(text, front(&mut list, lent as usize));
    let same = answer == file.number();
    let n: u32 = file.number();
    let room = (n as usize).min(LIST_WORDS);
    let written = file.words(room, &mut stored);
    same & (n as usize == room) & holds(&list, written)
}

// A text, a list, a kind, a name, and the name's number.
fn same_finding(file: &mut Bytes) -> bool {
    let mut list = [0u32; LIST_WORDS];
    let text = file.text();
    let n: u32 = file.number();
    let list = file.words(n as usize, &mut list);
    let kind: u32 = file.number();
    let name = file.text();
    export::dovetenon_find(text, list, kind, name) as u64 == file.number()
}

// The cases of a file, one by one; then how many there were, and how many answers differ.
fn replay<F: Fn(&mut Bytes, &mut Tally) -> io::Result<()>>(
    rt: &HostRuntime,
    room: &mut [u8],
    name: &str,
    done: &str,
    case: F,
) -> io::Result<()>
    requires { F.IsAlwaysCallable case }
{
    let n = read_all(&mut File::open(rt, name)?, room)?;
    let mut file = Bytes { rest: &room[..n] };
    let mut tally = Tally::default();
    let cases: u32 = file.number();
    for _ in 0..cases {
        case(&mut file, &mut tally)?;
    }
    println!(rt; "{} {done}, {} answers differ", tally.cases, tally.differ)
}

// Every case of a file that has one answer: whether it is the one stored.
fn replay_answers<F: Fn(&mut Bytes) -> bool>(
    rt: &HostRuntime,
    room: &mut [u8],
    name: &str,
    done: &str,
    same: F,
) -> io::Result<()>
    requires { F.IsAlwaysCallable same }
{
    replay(rt, room, name, done, |file, tally| {
        tally.count(same(file));
        Ok(())
    })
}

fn main(rt: HostRuntime) -> io::Result<()> {
    let rt = &rt;
    let room = &mut [0u8; FILE_BYTES];
    replay(rt, room, "trials.cases", "trials judged", |file, tally| {
        replay_table(file, tally, |verdict| tell(rt, verdict))
    })?;
    replay(
        rt,
        room,
        "judge.cases",
        "stored events judged",
        |file, tally| { replay_table(file, tally, |_| Ok(())) },
    )?;
    replay_answers(
        rt,
        room,
        "overlap.cases",
        "stored tables reported on",
        same_report,
    )?;
    replay_answers(rt, room, "page.cases", "stored pages read", same_page)?;
    replay_answers(
        rt,
        room,
        "read.cases",
        "stored texts read into tables",
        same_reading,
    )?;
    replay_answers(
        rt,
        room,
        "fill.cases",
        "stored texts filled out",
        same_filling,
    )?;
    replay_answers(rt, room, "name.cases", "stored names looked up", same_name)?;
    replay_answers(rt, room, "list.cases", "stored texts listed", same_listing)?;
    replay_answers(
        rt,
        room,
        "find.cases",
        "stored names searched for",
        same_finding,
    )
}
