// The judge: a table and an event to a verdict. Every function here answers for any words, well formed or not, by the policy that
// they hold; `judge` refuses a table that is not well formed before it asks.
#![tactic(auto)]

ghost use Rattle.std.specs.Prelude.{◌≡◌, ◌&&◌, ◌≤◌, cond, eqb, length, Some, None};
ghost use Rattle.paper.specs.Common.{within};
ghost use Rattle.paper.specs.Table.{policy_in};
ghost use Rattle.paper.specs.Match.{top};
ghost use Rattle.paper.specs.Verdict.{is_code, targets_of, target_number, target_listed, target_domain, verdict_of};
ghost use Rattle.paper.specs.Promises.{access_for, judge_event, judge_answer};
ghost use Rattle.judge_match.specs.Moments.{moment_of};

use judge_entries::is_code;
use judge_match::{Event, Ids};
use judge_whole::by_entries;
use paper::{Access, FunctionNumber, ObjectNumber, Operation, Verdict, limit, refusal, violation};

// The running function, which is the last frame.
fn running(stack: &[u16]) -> u16
    requires { 1 ≤ length stack.now }
    ensures { result ≡ top stack.now }
{
    stack[stack.len() - 1]
}

// The domains of what the access can be to.
fn targets(t: &[u16], access: Access) -> &[u16]
    ensures { result.now ≡ targets_of (policy_in t.now) access }
{
    if is_code(access) {
        return table::functions(t);
    }
    table::objects(t)
}

// The target's number among these.
fn target_number(access: Access) -> u16
    ensures { result ≡ target_number access }
{
    match access {
        Access::Read(o) => o.0,
        Access::Write(o) => o.0,
        Access::Call(f) => f.0,
        Access::Return(f) => f.0,
    }
}

fn target_listed(t: &[u16], access: Access) -> bool
    ensures { result ≡ target_listed (policy_in t.now) access }
{
    let n = target_number(access) as usize;
    n < targets(t, access).len()
}

fn target_domain(t: &[u16], access: Access) -> u16
    ensures { result ≡ target_domain (policy_in t.now) access }
{
    let n = target_number(access) as usize;
    table::word(targets(t, access), n)
}

fn inside_one_domain(event: Event) -> bool
    ensures { result ≡ (is_code event.access && eqb event.target event.subject) }
{
    is_code(event.access) && event.target == event.subject as usize
}

// The verdict, in the paper's order.
fn verdict(
    t: &[u16],
    access: Access,
    stack: &[u16],
    ids: Ids,
    allocation: &[u16],
    allocated: Ids,
) -> Verdict
    requires { 1 ≤ length stack.now }
    ensures { result ≡ verdict_of (policy_in t.now) access (moment_of stack.now ids) (moment_of allocation.now allocated) }
{
    let f = running(stack) as usize;
    let domains = table::functions(t);
    if domains.len() <= f {
        return Verdict::Violation {
            number: violation::TOP_UNLISTED,
        };
    }
    if !target_listed(t, access) {
        return Verdict::Violation {
            number: violation::TARGET_UNLISTED,
        };
    }
    let event = Event {
        access,
        subject: domains[f],
        target: target_domain(t, access) as usize,
        ids,
        allocated,
    };
    if inside_one_domain(event) {
        return Verdict::Inside;
    }
    by_entries(t, event, stack, allocation)
}

// The operation with its target, a function's number never being read as an object's; none where the code is of no operation.
fn access_for(operation: u16, target: u16) -> Option<Access>
    ensures { result ≡ cond (within 1 4 operation) (Some (access_for operation target)) None }
{
    match operation {
        Operation::READ => Some(Access::Read(ObjectNumber(target))),
        Operation::WRITE => Some(Access::Write(ObjectNumber(target))),
        Operation::CALL => Some(Access::Call(FunctionNumber(target))),
        Operation::RETURN => Some(Access::Return(FunctionNumber(target))),
        _ => None,
    }
}

// Judges by the words as they stand, for callers that tested once that the table is well formed and ask many times.
pub fn judge_known(
    t: &[u16],
    operation: u16,
    target: u16,
    stack: &[u16],
    ids: Ids,
    allocation: &[u16],
    allocated: Ids,
) -> Verdict
    ensures { result ≡ judge_event (policy_in t.now) operation target (moment_of stack.now ids) (moment_of allocation.now allocated) }
{
    if stack.is_empty() || limit::FRAMES < stack.len() {
        return Verdict::Unjudged {
            number: refusal::STACK,
        };
    }
    if limit::FRAMES < allocation.len() {
        return Verdict::Unjudged {
            number: refusal::ALLOCATION_STACK,
        };
    }
    let Some(access) = access_for(operation, target) else {
        return Verdict::Unjudged {
            number: refusal::OPERATION,
        };
    };
    verdict(t, access, stack, ids, allocation, allocated)
}

// Any table and any event to a verdict, or a refusal.
pub fn judge(
    t: &[u16],
    operation: u16,
    target: u16,
    stack: &[u16],
    ids: Ids,
    allocation: &[u16],
    allocated: Ids,
) -> Verdict
    ensures { result ≡ judge_answer t.now operation target (moment_of stack.now ids) (moment_of allocation.now allocated) }
{
    if !table_test::well_formed(t) {
        return Verdict::Unjudged {
            number: refusal::TABLE_ILL_FORMED,
        };
    }
    judge_known(t, operation, target, stack, ids, allocation, allocated)
}
