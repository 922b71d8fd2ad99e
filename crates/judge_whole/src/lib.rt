// The verdict of the entries of any table, and the pass of a read or a write. A table that has all words of its entries, as every
// well-formed one has, is read by `There`, which asks no word whether it is there: that is asked once for an event.
#![tactic(auto)]

ghost use Rattle.std.specs.Prelude.{◌≡◌, true, false, ℕ, ◌+◌, ◌*◌, ◌<◌, ◌≤◌, length, ◌&&◌, cond};
ghost use Rattle.paper.specs.Table.{object_domain_count, entry_at, descriptor_at, entry_count, policy_in, entry_in, first_descriptor};
ghost use Rattle.paper.specs.Verdict.{is_code, target_domain, entry_grants};
ghost use Rattle.table.specs.Reach.{reach, word_values};
ghost use Rattle.judge_match.specs.Moments.{binding, allocation_of, Placed, has_subject};
ghost use Rattle.judge_entries.specs.Passes.{domain_count, is_write, by_all_entries, GrantedFrom, Ready};
ghost use Rattle.judge_whole.specs.Descriptors.{Describes};
ghost use Rattle.judge_whole.specs.Whole.{Whole, NoneGrants, MayGrant};

pub mod descriptors;
pub mod there;

use crate::descriptors::Descriptors;
use crate::there::There;
use judge_entries::{first_granting_code, first_match, is_code, is_write, verdict};
use judge_match::reading::{Any, Reading};
use judge_match::{Case, Event, grant_holds};
use paper::{Access, Verdict, limit};
use table::layout;

// None of n descriptors from the first on, which may be read, holds the target's domain, where this is asked.
fn none_holds<R: Reading>(case: &Case, first: usize, n: usize) -> bool
    requires n_bound { descriptor_at (first + n) ≤ reach }
    requires among { R.may_ask case.now.event.target (object_domain_count case.now.table.now) }
    ensures { result ≡ true → NoneGrants case.now.table.now first n case.now.event }
{
    if !R::asks_ends() {
        return false;
    }
    let target = case.event.target;
    if !R::reaches(case.table, layout::descriptor_at(first + n) + target / 16) {
        return false;
    }
    let domains = table::count(case.table, layout::OBJECT_DOMAIN_COUNT_AT);
    for i in 0..n {
        let at = layout::descriptor_at(first + i);
        if grant_holds::<R>(case.table, at + layout::GRANT_AT, domains, target) {
            return false;
        }
    }
    true
}

// Entry k may grant the read or write: it has the subject, and one of its descriptors may hold the domain.
fn may_grant<R: Reading, const WRITE: bool>(case: &Case, k: usize, descriptors: Descriptors) -> bool
    requires of_data { (is_code case.now.event.access ≡ false) × (is_write case.now.event.access ≡ WRITE) }
    requires k_bound { (k < entry_count case.now.table.now) × (k ≤ word_values) }
    requires describes { Describes case.now.table.now k descriptors }
    requires ready { Ready R.may_read R.may_ask case.now.table.now case.now.event }
    ensures { MayGrant case.now.table.now k case.now.event result }
{
    if !case.has_subject::<R>(k) {
        return false;
    }
    let asked = descriptors.asked::<WRITE>();
    !none_holds::<R>(case, asked.first, asked.count)
}

// Entry k has the subject and grants the read or write.
fn data_granted<R: Reading, const WRITE: bool>(
    case: &Case,
    k: usize,
    descriptors: Descriptors,
) -> bool
    requires of_data { (is_code case.now.event.access ≡ false) × (is_write case.now.event.access ≡ WRITE) }
    requires k_bound { (k < entry_count case.now.table.now) × (k ≤ word_values) }
    requires describes { Describes case.now.table.now k descriptors }
    requires ready { Ready R.may_read R.may_ask case.now.table.now case.now.event }
    ensures { result ≡ (has_subject case.now.table.now k case.now.event
        && entry_grants (policy_in case.now.table.now) (entry_in case.now.table.now k) case.now.event.access
        (binding case.now.event) (allocation_of case.now.allocation.now case.now.event)) }
{
    if !case.has_subject::<R>(k) {
        return false;
    }
    let asked = descriptors.asked::<WRITE>();
    case.some_descriptor_grants(asked.first, asked.count)
}

// How many descriptors the first n entries have.
fn first_descriptor<R: Reading>(case: &Case, n: usize) -> usize
    requires n_bound { (n ≤ entry_count case.now.table.now) × (n ≤ word_values) }
    requires ready { Ready R.may_read R.may_ask case.now.table.now case.now.event }
    ensures { (result ≡ first_descriptor case.now.table.now n) × (result ≤ 2 * word_values * n) }
{
    let mut first: usize = 0;
    for k in 0..n {
        first = Descriptors::of_entry::<R>(case.table, k, first).end();
    }
    first
}

// The lowest entry from one on that matches and grants the read or write.
fn first_granting_data<R: Reading, const WRITE: bool>(case: &Case, from: usize) -> Option<u16>
    requires of_data { (is_code case.now.event.access ≡ false) × (is_write case.now.event.access ≡ WRITE) }
    requires from_bound { from ≤ entry_count case.now.table.now }
    requires ready { Ready R.may_read R.may_ask case.now.table.now case.now.event }
    ensures { GrantedFrom case.now.table.now case.now.stack.now case.now.event
        (allocation_of case.now.allocation.now case.now.event) from result }
{
    let entries = table::count(case.table, layout::ENTRY_COUNT_AT);
    let mut first = first_descriptor::<R>(case, from);
    for k in from..entries {
        let descriptors = Descriptors::of_entry::<R>(case.table, k, first);
        if may_grant::<R, WRITE>(case, k, descriptors)
            && data_granted::<R, WRITE>(case, k, descriptors)
            && case.entry_fits::<R>(k)
        {
            return Some(k as u16);
        }
        first = descriptors.end();
    }
    None
}

fn first_granting<R: Reading>(case: &Case, from: usize) -> Option<u16>
    requires from_bound { from ≤ entry_count case.now.table.now }
    requires ready { Ready R.may_read R.may_ask case.now.table.now case.now.event }
    ensures { GrantedFrom case.now.table.now case.now.stack.now case.now.event
        (allocation_of case.now.allocation.now case.now.event) from result }
{
    let access = case.event.access;
    if is_code(access) {
        first_granting_code::<R>(case, from)
    } else if is_write(access) {
        first_granting_data::<R, true>(case, from)
    } else {
        first_granting_data::<R, false>(case, from)
    }
}

fn by_words<R: Reading>(case: &Case) -> Verdict
    requires { Ready R.may_read R.may_ask case.now.table.now case.now.event }
    ensures { result ≡ by_all_entries case.now.table.now case.now.stack.now case.now.event
        (allocation_of case.now.allocation.now case.now.event) }
{
    let matching = first_match::<R>(case);
    let granting = match matching {
        Some(first) => first_granting::<R>(case, first),
        None => None,
    };
    verdict(matching, granting)
}

// How many domains an access can be to.
fn domains(t: &[u16], access: Access) -> usize
    ensures { result ≡ domain_count t.now access }
{
    if is_code(access) {
        return table::count(t, layout::SUBJECT_DOMAIN_COUNT_AT);
    }
    table::count(t, layout::OBJECT_DOMAIN_COUNT_AT)
}

// The table has all words of its entries, and the target's domain is one that a grant has a bit for.
fn is_whole(t: &[u16], event: Event) -> bool
    ensures { result ≡ true → Whole t.now event }
{
    let target = event.target;
    if limit::DOMAINS <= target {
        return false;
    }
    if domains(t, event.access) <= target {
        return false;
    }
    layout::entry_at(table::count(t, layout::ENTRY_COUNT_AT)) <= t.len()
}

// The verdict of the entries of any table.
pub fn by_entries(t: &[u16], event: Event, stack: &[u16], allocation: &[u16]) -> Verdict
    requires { Placed t.now stack.now event }
    ensures { result ≡ by_all_entries t.now stack.now event (allocation_of allocation.now event) }
{
    let case = Case {
        table: t,
        functions: table::functions(t),
        event,
        stack,
        allocation,
    };
    if is_whole(t, event) {
        by_words::<There>(&case)
    } else {
        by_words::<Any>(&case)
    }
}
