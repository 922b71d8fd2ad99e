// An answer as one number: crates/paper/specs/Answers.antt says how, include/dovetenon.h what each means.
#![tactic(auto)]

pub mod class;

ghost use Rattle.std.specs.Prelude.{◌≡◌, ◌≤◌, ◌<◌};
ghost use Rattle.paper.specs.Answers.{clash_rest, packed, reading_packed, filling_packed, verdict_packed, report_packed, ReportFits};

use paper::{Filling, Reading, Report, Verdict};

// Where the class of an answer begins, and the rest: bits 16 and 32.
const CLASS: u32 = 65536;

const REST: u64 = 4294967296;

// Where the higher entry of a clash begins, the depth and the uid: bits 8, 16 and 24 of the rest.
const HIGHER: u32 = 256;

const DEPTH: u32 = 65536;

const UID: u32 = 16777216;

// The low half of an answer.
fn half(class: u16, value: u16) -> u32
    ensures { result ≡ packed (record { class = class; value = value; rest = 0 }) }
{
    (value as u32) + (class as u32) * CLASS
}

// An answer: its class, a value, and whatever else it tells.
pub fn whole(class: u16, value: u16, rest: u32) -> u64
    ensures { result ≡ packed (record { class = class; value = value; rest = rest }) }
{
    (half(class, value) as u64) + (rest as u64) * REST
}

// A function for each type of answer: a trait would be no plainer, since each is called at one type, and a report needs room.
pub fn packed_verdict(verdict: Verdict) -> u32
    ensures { result ≡ verdict_packed verdict }
{
    match verdict {
        Verdict::Unjudged { number } => half(class::REFUSED, number),
        Verdict::Violation { number } => half(class::VIOLATION, number),
        Verdict::Inside => half(class::INSIDE, 0),
        Verdict::Granted { entry } => half(class::GRANTED, entry),
    }
}

// What a clash tells besides.
fn clash_rest(lower: u16, higher: u16, depth: u16, uid: u32) -> u32
    requires { (lower < 256) × (higher < 256) × (depth < 256) × (uid ≤ 1) }
    ensures { result ≡ clash_rest lower higher depth uid }
{
    (lower as u32) + (higher as u32) * HIGHER + (depth as u32) * DEPTH + uid * UID
}

pub fn packed_report(report: Report) -> u64
    requires { ReportFits report }
    ensures { result ≡ report_packed report }
{
    match report {
        Report::Unreported { number } => whole(class::REFUSED, number, 0),
        Report::Clash {
            lower,
            higher,
            depth,
            uid,
            gid: _,
            namespace: _,
        } => whole(class::CLASH, 0, clash_rest(lower, higher, depth, uid)),
        Report::Clear => whole(class::CLEAR, 0, 0),
    }
}

pub fn packed_reading(reading: Reading) -> u64
    ensures { result ≡ reading_packed reading }
{
    match reading {
        Reading::Unread { number, line } => whole(class::REFUSED, number, line),
        Reading::Accepted => whole(class::ACCEPTED, 0, 0),
    }
}

pub fn packed_filling(filling: Filling) -> u64
    ensures { result ≡ filling_packed filling }
{
    match filling {
        Filling::Unfilled { number, line } => whole(class::REFUSED, number, line),
        Filling::Written { size } => whole(class::WRITTEN, 0, size),
    }
}
