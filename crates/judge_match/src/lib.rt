// Whether an entry of a table matches an event, and whether a grant or a descriptor of it grants the access. Every function here answers
// for any words, well formed or not, by the policy that they hold.
#![tactic(auto)]

ghost use Rattle.std.specs.Prelude.{◌≡◌, true, [], map, ◌+◌, ◌/◌, ◌<◌, ◌≤◌};
ghost use Rattle.paper.specs.Common.{count_up};
ghost use Rattle.paper.specs.Table.{set_at, subject_at, entry_at, descriptor_at, object_domain_count, function_domains_in, pattern_words_in, policy_in, entry_in, context_in, grant_in, descriptor_in, sort_in};
ghost use Rattle.paper.specs.Match.{sort_fits, sorts_fit, allocated_sort_fits, allocated_sorts_fit, sorts_anyone, entry_matches, fits_static, fits_allocated, context_fits_object};
ghost use Rattle.paper.specs.Match.{grants, descriptor_grants, some_descriptor_grants};
ghost use Rattle.table.specs.Reach.{reach, word_values};
ghost use Rattle.judge_match.specs.Moments.{moment_of, binding, allocation_of, Placed, has_subject};

pub mod reading;

use crate::reading::{Any, Reading};
use paper::{Access, limit};
use table::layout;

// The uid, gid and namespace of a moment.
#[derive(Clone, Copy)]
pub struct Ids {
    pub uid: u32,
    pub gid: u32,
    pub namespace: u32,
}

// An event besides its stacks: the access, the domains of the running function and of the target, and the numbers of both moments.
#[derive(Clone, Copy)]
pub struct Event {
    pub access: Access,
    pub subject: u16,
    pub target: usize,
    pub ids: Ids,
    pub allocated: Ids,
}

// An event with its stacks, judged on a table: the domains of the table's functions, the event's stack and that of the allocation.
#[derive(Clone, Copy)]
pub struct Case<'a> {
    pub table: &'a [u16],
    pub functions: &'a [u16],
    pub event: Event,
    pub stack: &'a [u16],
    pub allocation: &'a [u16],
    pub ghost functions_value: { functions.now ≡ function_domains_in table.now },
    pub ghost placed: { Placed table.now stack.now event },
}

pub fn sort_fits(sort: u16, id: u32) -> bool
    ensures { result ≡ sort_fits (sort_in sort) id }
{
    if sort <= layout::VARIABLE {
        return true;
    }
    if sort == layout::ROOT {
        return id == 0;
    }
    id != 0
}

// A variable needs the number that the entry bound.
fn allocated_sort_fits(sort: u16, bound: u32, id: u32) -> bool
    ensures { result ≡ allocated_sort_fits (sort_in sort) bound id }
{
    if sort == layout::VARIABLE {
        return id == bound;
    }
    sort_fits(sort, id)
}

// The sorts of the context at a place fit the numbers of a moment, whatever its stack.
fn sorts_fit<R: Reading>(t: &[u16], at: usize, ids: Ids) -> bool
    requires at_bound { at ≤ reach }
    requires there { R.may_read t.now (at + subject_at) }
    ensures { result ≡ sorts_fit (context_in t.now at) (moment_of [] ids) }
{
    if !sort_fits(R::word(t, at + layout::UID_AT), ids.uid) {
        return false;
    }
    if !sort_fits(R::word(t, at + layout::GID_AT), ids.gid) {
        return false;
    }
    sort_fits(R::word(t, at + layout::NAMESPACE_AT), ids.namespace)
}

// Those of an allocation, each against its own.
fn allocated_sorts_fit(t: &[u16], at: usize, ids: Ids, allocated: Ids) -> bool
    requires { at ≤ reach }
    ensures { result ≡ allocated_sorts_fit (context_in t.now at) (moment_of [] ids) (moment_of [] allocated) }
{
    let uid = table::word(t, at + layout::UID_AT);
    if !allocated_sort_fits(uid, ids.uid, allocated.uid) {
        return false;
    }
    let gid = table::word(t, at + layout::GID_AT);
    if !allocated_sort_fits(gid, ids.gid, allocated.gid) {
        return false;
    }
    let namespace = table::word(t, at + layout::NAMESPACE_AT);
    allocated_sort_fits(namespace, ids.namespace, allocated.namespace)
}

// They are all `all`.
fn sorts_anyone(t: &[u16], at: usize) -> bool
    requires { at ≤ reach }
    ensures { result ≡ sorts_anyone (context_in t.now at) }
{
    if table::word(t, at + layout::UID_AT) != layout::ANYONE {
        return false;
    }
    if table::word(t, at + layout::GID_AT) != layout::ANYONE {
        return false;
    }
    table::word(t, at + layout::NAMESPACE_AT) == layout::ANYONE
}

// The pattern of the context at a place.
pub fn pattern_at<R: Reading>(t: &[u16], at: usize) -> &[u16]
    requires at_bound { at ≤ reach }
    requires there { R.may_read t.now (at + subject_at) }
    ensures { result.now ≡ pattern_words_in t.now at }
{
    let n = R::word(t, at) as usize;
    if limit::ELEMENTS < n {
        return table::pattern_at(t, at);
    }
    R::part(t, at + layout::ELEMENTS_AT, n)
}

// Only `all` everywhere fits a static object.
fn fits_static(t: &[u16], at: usize) -> bool
    requires { at ≤ reach }
    ensures { result ≡ fits_static (context_in t.now at) }
{
    if !sorts_anyone(t, at) {
        return false;
    }
    judge_pattern::is_all(table::pattern_at(t, at))
}

// The grant at a place, among so many domains, holds domain d.
pub fn grant_holds<R: Reading>(t: &[u16], at: usize, domains: usize, d: usize) -> bool
    requires at_bound { at ≤ reach }
    requires among { R.may_ask d domains }
    requires there { R.may_read t.now (at + set_at + d / 16 + 1) }
    ensures { result ≡ grants (grant_in t.now at domains) d }
{
    if R::word(t, at) == layout::EVERY {
        return true;
    }
    R::holds(t, at + layout::SET_AT, domains, d)
}

// Entry k has the event's subject.
pub fn has_subject<R: Reading>(t: &[u16], k: usize, event: Event) -> bool
    requires k_bound { entry_at k ≤ reach }
    requires there { R.may_read t.now (entry_at (k + 1)) }
    ensures { result ≡ has_subject t.now k event }
{
    event.subject == R::word(t, layout::entry_at(k) + layout::SUBJECT_AT)
}

// The context at a place fits the allocated object. The functions are the table's, here and below.
fn fits_allocated(
    t: &[u16],
    functions: &[u16],
    at: usize,
    event: &Event,
    allocation: &[u16],
) -> bool
    requires at_bound { at ≤ reach }
    requires functions_value { functions.now ≡ function_domains_in t.now }
    ensures { result ≡ fits_allocated (policy_in t.now) (context_in t.now at) (binding event.now) (allocation_of allocation.now event.now) }
{
    if !allocated_sorts_fit(t, at, event.ids, event.allocated) {
        return false;
    }
    judge_pattern::matches_stack(functions, table::pattern_at(t, at), allocation)
}

// It fits the object, which is static where nothing allocated it.
fn fits_object(t: &[u16], functions: &[u16], at: usize, event: &Event, allocation: &[u16]) -> bool
    requires at_bound { at ≤ reach }
    requires functions_value { functions.now ≡ function_domains_in t.now }
    ensures { result ≡ context_fits_object (policy_in t.now) (context_in t.now at) (binding event.now) (allocation_of allocation.now event.now) }
{
    if allocation.is_empty() {
        return fits_static(t, at);
    }
    fits_allocated(t, functions, at, event, allocation)
}

// The context at a place fits the event's object.
pub fn context_fits_object(t: &[u16], at: usize, event: Event, allocation: &[u16]) -> bool
    requires { at ≤ reach }
    ensures { result ≡ context_fits_object (policy_in t.now) (context_in t.now at) (binding event) (allocation_of allocation.now event) }
{
    fits_object(t, table::functions(t), at, &event, allocation)
}

// Descriptor d grants the access, by its grant among so many domains, and by its context.
#[inline(always)]
fn descriptor_grants(
    t: &[u16],
    functions: &[u16],
    d: usize,
    domains: usize,
    event: &Event,
    allocation: &[u16],
) -> bool
    requires d_bound { descriptor_at (d + 1) ≤ reach }
    requires functions_value { functions.now ≡ function_domains_in t.now }
    requires domains_value { domains ≡ object_domain_count t.now }
    ensures { result ≡ descriptor_grants (policy_in t.now) event.now.target (binding event.now) (allocation_of allocation.now event.now) (descriptor_in t.now d) }
{
    let at = layout::descriptor_at(d);
    if !grant_holds::<Any>(t, at + layout::GRANT_AT, domains, event.target) {
        return false;
    }
    fits_object(t, functions, at, event, allocation)
}

// One of n descriptors from the first on grants the access. How many domains there are is asked once.
fn some_grants(
    t: &[u16],
    functions: &[u16],
    first: usize,
    n: usize,
    event: &Event,
    allocation: &[u16],
) -> bool
    requires n_bound { descriptor_at (first + n) ≤ reach }
    requires functions_value { functions.now ≡ function_domains_in t.now }
    ensures { result ≡ some_descriptor_grants (policy_in t.now) (map (descriptor_in t.now) (count_up first n))
        event.now.target (binding event.now) (allocation_of allocation.now event.now) }
{
    let domains = table::count(t, layout::OBJECT_DOMAIN_COUNT_AT);
    for i in 0..n {
        if descriptor_grants(t, functions, first + i, domains, event, allocation) {
            return true;
        }
    }
    false
}

// One of n descriptors from the first on grants the access.
pub fn some_descriptor_grants(
    t: &[u16],
    first: usize,
    n: usize,
    event: Event,
    allocation: &[u16],
) -> bool
    requires { descriptor_at (first + n) ≤ reach }
    ensures { result ≡ some_descriptor_grants (policy_in t.now) (map (descriptor_in t.now) (count_up first n))
        event.target (binding event) (allocation_of allocation.now event) }
{
    some_grants(t, table::functions(t), first, n, &event, allocation)
}

impl<'a> Case<'a> {
    // Entry k has the event's subject.
    pub fn has_subject<R: Reading>(&self, k: usize) -> bool
        requires k_bound { entry_at k ≤ reach }
        requires there { R.may_read self.now.table.now (entry_at (k + 1)) }
        ensures { result ≡ has_subject self.now.table.now k self.now.event }
    {
        has_subject::<R>(self.table, k, self.event)
    }

    // Entry k, which has the subject, matches: its sorts fit the event, and its pattern the stack.
    pub fn entry_fits<R: Reading>(&self, k: usize) -> bool
        requires k_bound { entry_at k ≤ reach }
        requires there { R.may_read self.now.table.now (entry_at (k + 1)) }
        requires of_subject { has_subject self.now.table.now k self.now.event ≡ true }
        ensures { result ≡ entry_matches (policy_in self.now.table.now) (entry_in self.now.table.now k)
            (moment_of self.now.stack.now self.now.event.ids) }
    {
        let at = layout::entry_at(k);
        if !sorts_fit::<R>(self.table, at, self.event.ids) {
            return false;
        }
        judge_pattern::matches_stack(self.functions, pattern_at::<R>(self.table, at), self.stack)
    }

    // One of n descriptors from the first on grants the access.
    pub fn some_descriptor_grants(&self, first: usize, n: usize) -> bool
        requires { descriptor_at (first + n) ≤ reach }
        ensures { result ≡ some_descriptor_grants (policy_in self.now.table.now)
            (map (descriptor_in self.now.table.now) (count_up first n)) self.now.event.target
            (binding self.now.event) (allocation_of self.now.allocation.now self.now.event) }
    {
        some_grants(
            self.table,
            self.functions,
            first,
            n,
            &self.event,
            self.allocation,
        )
    }
}
