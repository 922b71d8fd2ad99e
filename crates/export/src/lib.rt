// The proved functions, as C and Rust call them: include/dovetenon.h says what each answers, and crates/paper/specs/Answers.antt how
// an answer is one number.
#![tactic(auto)]

pub mod map;

ghost use Rattle.std.specs.Prelude.{◌≡◌};
ghost use Rattle.paper.specs.Table.{well_formed, policy_in};
ghost use Rattle.paper.specs.Promises.{text_page, reading_of, read_answer, read_leaves, fill_answer, fill_leaves, judge_event, judge_answer};
ghost use Rattle.paper.specs.Promises.{lookup_answer, lookup_numbered};
ghost use Rattle.paper.specs.Answers.{reading_packed, filling_packed, verdict_packed, name_packed};
ghost use Rattle.file_listing.specs.Answer.{list_answer, list_leaves, listing_packed};
ghost use Rattle.file_find.specs.Number.{number_of};
ghost use Rattle.export.specs.Told.{ReportedAs};

use export_packed::{class, packed_filling, packed_reading, packed_report, packed_verdict, whole};
use file_listing::Listing;
use judge_match::Ids;
use paper::Map;

pub fn dovetenon_well_formed(table: &[u16]) -> bool
    ensures { result ≡ well_formed table.now }
{
    table_test::well_formed(table)
}

// Both judges have the arguments that the C interface gives them.
pub fn dovetenon_judge(
    table: &[u16],
    operation: u16,
    target: u16,
    stack: &[u16],
    uid: u32,
    gid: u32,
    namespace: u32,
    allocation: &[u16],
    allocation_uid: u32,
    allocation_gid: u32,
    allocation_namespace: u32,
) -> u32
    ensures { result ≡ verdict_packed (judge_answer table.now operation target
        (record { stack = stack.entry.now; uid = uid; gid = gid; namespace = namespace })
        (record { stack = allocation.now; uid = allocation_uid; gid = allocation_gid; namespace = allocation_namespace })) }
{
    let ids = Ids {
        uid,
        gid,
        namespace,
    };
    let allocated = Ids {
        uid: allocation_uid,
        gid: allocation_gid,
        namespace: allocation_namespace,
    };
    packed_verdict(judge::judge(table, operation, target, stack, ids, allocation, allocated))
}

pub fn dovetenon_judge_known(
    table: &[u16],
    operation: u16,
    target: u16,
    stack: &[u16],
    uid: u32,
    gid: u32,
    namespace: u32,
    allocation: &[u16],
    allocation_uid: u32,
    allocation_gid: u32,
    allocation_namespace: u32,
) -> u32
    ensures { result ≡ verdict_packed (judge_event (policy_in table.now) operation target
        (record { stack = stack.entry.now; uid = uid; gid = gid; namespace = namespace })
        (record { stack = allocation.now; uid = allocation_uid; gid = allocation_gid; namespace = allocation_namespace })) }
{
    let ids = Ids {
        uid,
        gid,
        namespace,
    };
    let allocated = Ids {
        uid: allocation_uid,
        gid: allocation_gid,
        namespace: allocation_namespace,
    };
    packed_verdict(judge::judge_known(table, operation, target, stack, ids, allocation, allocated))
}

pub fn dovetenon_overlap(table: &[u16], witness: &mut [u16]) -> u64
    ensures { ReportedAs table.now witness.old witness.new result }
{
    packed_report(overlap::overlap(table, witness))
}

pub fn dovetenon_page(text: &[u8]) -> u64
    ensures { result ≡ reading_packed (reading_of (text_page text.now)) }
{
    packed_reading(text_page::text_reading(text))
}

pub fn dovetenon_read(text: &[u8], table: &mut [u16]) -> u64
    ensures value { result ≡ reading_packed (read_answer text.now table.old) }
    ensures table_after { table.new ≡ read_leaves text.now table.old }
{
    packed_reading(file_read::read(text, table))
}

pub fn dovetenon_fill(text: &[u8], out: &mut [u8]) -> u64
    ensures value { result ≡ filling_packed (fill_answer text.now out.old) }
    ensures out_after { out.new ≡ fill_leaves text.now out.old }
{
    packed_filling(file_fill::fill(text, out))
}

// The name of a domain, or that there is none.
fn packed_name(text: &[u8], map: Map, domain: usize) -> u64
    ensures { result ≡ name_packed (lookup_answer text.now map domain) }
{
    let place = file_lookup::name_place(text, map, domain);
    let start = place.start;
    let length = place.end - start;
    if length == 0 {
        return whole(class::NAME_NONE, 0, 0);
    }
    whole(class::NAME_FOUND, length as u16, start as u32)
}

pub fn dovetenon_name(text: &[u8], map: u16, domain: usize) -> u64
    ensures { result ≡ name_packed (lookup_numbered text.now map domain) }
{
    match map::numbered(map) {
        Some(which) => packed_name(text, which, domain),
        None => whole(class::NAME_NONE, 0, 0),
    }
}

fn packed_listing(listing: Listing) -> u64
    ensures { result ≡ listing_packed listing }
{
    match listing {
        Listing::Unlisted { number, line } => whole(class::REFUSED, number, line),
        Listing::Listed { words } => whole(class::LISTED, 0, words),
    }
}

pub fn dovetenon_list(text: &[u8], list: &mut [u32]) -> u64
    ensures value { result ≡ listing_packed (list_answer text.now) }
    ensures list_after { list.new ≡ list_leaves text.now list.old }
{
    packed_listing(file_listing::list(text, list))
}

pub fn dovetenon_find(text: &[u8], list: &[u32], kind: u32, name: &[u8]) -> usize
    ensures { result ≡ number_of text.now list.now kind name.now }
{
    file_find::find(text, list, kind, name)
}
