// What is asked of the entries: the first that matches; for a call or a return, from one on the first that grants as well; and the
// verdict that these two come to.
#![tactic(auto)]

ghost use Rattle.std.specs.Prelude.{◌≡◌, cond, true, ◌&&◌, ℕ, Some, ◌+◌, ◌<◌, ◌≤◌};
ghost use Rattle.paper.specs.Table.{returns_at, entry_at, entry_count, subject_domain_count, grant_in};
ghost use Rattle.paper.specs.Match.{Moment, grants};
ghost use Rattle.paper.specs.Verdict.{is_code};
ghost use Rattle.table.specs.Reach.{word_values};
ghost use Rattle.judge_match.specs.Moments.{moment_of, has_subject};
ghost use Rattle.judge_entries.specs.Passes.{is_write, code_grant_at, Ready, FirstOfAll, MayMatch, GrantedFrom, verdict_of_passes};

use judge_match::reading::Reading;
use judge_match::{Case, grant_holds, pattern_at, sort_fits};
use judge_pattern::Words;
use paper::{Access, Verdict, violation};
use table::layout;

pub fn is_code(access: Access) -> bool
    ensures { result ≡ is_code access }
{
    matches!(access, Access::Call(_) | Access::Return(_))
}

pub fn is_write(access: Access) -> bool
    ensures { result ≡ is_write access }
{
    matches!(access, Access::Write(_))
}

// Where an entry grants calls, or returns.
pub fn code_grant_at(access: Access) -> usize
    ensures { (result ≡ code_grant_at access) × (result ≤ returns_at) }
{
    if matches!(access, Access::Return(_)) {
        layout::RETURNS_AT
    } else {
        layout::CALLS_AT
    }
}

// Entry k has the subject, and neither its uid nor an end of its pattern tells that it does not match, where these are asked.
fn may_match<R: Reading>(case: &Case, k: usize, base: Words, top: Words) -> bool
    requires k_bound { (k < entry_count case.now.table.now) × (k ≤ word_values) }
    requires ready { Ready R.may_read R.may_ask case.now.table.now case.now.event }
    ensures of_subject { result ≡ true → has_subject case.now.table.now k case.now.event ≡ true }
    ensures may { MayMatch case.now.table.now k case.now.event base top result }
{
    if !case.has_subject::<R>(k) {
        return false;
    }
    if !R::asks_ends() {
        return true;
    }
    let at = layout::entry_at(k);
    if !sort_fits(R::word(case.table, at + layout::UID_AT), case.event.ids.uid) {
        return false;
    }
    judge_pattern::ends_may_meet(pattern_at::<R>(case.table, at), base, top)
}

// The lowest entry that matches.
pub fn first_match<R: Reading>(case: &Case) -> Option<usize>
    requires { Ready R.may_read R.may_ask case.now.table.now case.now.event }
    ensures { FirstOfAll case.now.table.now (moment_of case.now.stack.now case.now.event.ids) result }
{
    let stack = case.stack;
    let base = Words::of_frame(case.functions, stack[0]);
    let top = Words::of_frame(case.functions, stack[stack.len() - 1]);
    let entries = table::count(case.table, layout::ENTRY_COUNT_AT);
    for k in 0..entries {
        if may_match::<R>(case, k, base, top) && case.entry_fits::<R>(k) {
            return Some(k);
        }
    }
    None
}

// Entry k has the subject and grants the call or return by its grant at a place: these two mostly say no.
fn code_granted<R: Reading>(case: &Case, k: usize, grant: usize, domains: usize) -> bool
    requires k_bound { (k < entry_count case.now.table.now) × (k ≤ word_values) }
    requires of_code { is_code case.now.event.access ≡ true }
    requires grant_bound { (grant ≤ returns_at) × (domains ≡ subject_domain_count case.now.table.now) }
    requires ready { Ready R.may_read R.may_ask case.now.table.now case.now.event }
    ensures { result ≡ (has_subject case.now.table.now k case.now.event
        && grants (grant_in case.now.table.now (entry_at k + grant) domains) case.now.event.target) }
{
    if !case.has_subject::<R>(k) {
        return false;
    }
    grant_holds::<R>(
        case.table,
        layout::entry_at(k) + grant,
        domains,
        case.event.target,
    )
}

// The lowest entry from one on that matches and grants the call or return.
pub fn first_granting_code<R: Reading>(case: &Case, from: usize) -> Option<u16>
    requires access_value { is_code case.now.event.access ≡ true }
    requires ready { Ready R.may_read R.may_ask case.now.table.now case.now.event }
    ensures { (allocation : Moment) → GrantedFrom case.now.table.now case.now.stack.now case.now.event allocation from result }
{
    let domains = table::count(case.table, layout::SUBJECT_DOMAIN_COUNT_AT);
    let grant = code_grant_at(case.event.access);
    let entries = table::count(case.table, layout::ENTRY_COUNT_AT);
    for k in from..entries {
        if code_granted::<R>(case, k, grant, domains) && case.entry_fits::<R>(k) {
            return Some(k as u16);
        }
    }
    None
}

// The verdict, by the lowest entry that matches and the lowest that grants as well; those before the first are not asked for a grant.
pub fn verdict(matching: Option<usize>, granting: Option<u16>) -> Verdict
    ensures { result ≡ verdict_of_passes matching granting }
{
    match (matching, granting) {
        (None, _) => Verdict::Violation {
            number: violation::NO_ENTRY_MATCHES,
        },
        (Some(_), None) => Verdict::Violation {
            number: violation::NONE_GRANTS,
        },
        (Some(_), Some(entry)) => Verdict::Granted { entry },
    }
}
