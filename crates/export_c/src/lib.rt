// The proved functions for C: each answers what the function of its name in crate `export` answers. include/dovetenon.h says
// what that is, and crates/paper/specs/Answers.antt how an answer is one number.
#![tactic(auto)]

ghost use Rattle.std.specs.Prelude.{◌≡◌};
ghost use Rattle.paper.specs.Table.{well_formed, policy_in};
ghost use Rattle.paper.specs.Promises.{text_page, reading_of, read_answer, read_leaves, fill_answer, fill_leaves, judge_event, judge_answer};
ghost use Rattle.paper.specs.Promises.{lookup_answer, lookup_numbered};
ghost use Rattle.paper.specs.Answers.{reading_packed, filling_packed, verdict_packed, name_packed};
ghost use Rattle.file_listing.specs.Answer.{list_answer, list_leaves, listing_packed};
ghost use Rattle.file_find.specs.Number.{number_of};
ghost use Rattle.export.specs.Told.{ReportedAs};

#[unsafe(no_mangle)]
pub extern "C" fn dovetenon_well_formed(table: &[u16]) -> bool
    ensures { result ≡ well_formed table.now }
{
    export::dovetenon_well_formed(table)
}

#[unsafe(no_mangle)]
pub extern "C" fn dovetenon_judge(
    table: &[u16],
    operation: u16,
    target: u16,
    stack: &[u16],
    uid: u32,
    gid: u32,
    namespace: u32,
    allocation: &[u16],
    allocation_uid: u32,
    allocation_gid: u32,
    allocation_namespace: u32,
) -> u32
    ensures { result ≡ verdict_packed (judge_answer table.now operation target
        (record { stack = stack.entry.now; uid = uid; gid = gid; namespace = namespace })
        (record { stack = allocation.now; uid = allocation_uid; gid = allocation_gid; namespace = allocation_namespace })) }
{
    export::dovetenon_judge(
        table,
        operation,
        target,
        stack,
        uid,
        gid,
        namespace,
        allocation,
        allocation_uid,
        allocation_gid,
        allocation_namespace,
    )
}

#[unsafe(no_mangle)]
pub extern "C" fn dovetenon_judge_known(
    table: &[u16],
    operation: u16,
    target: u16,
    stack: &[u16],
    uid: u32,
    gid: u32,
    namespace: u32,
    allocation: &[u16],
    allocation_uid: u32,
    allocation_gid: u32,
    allocation_namespace: u32,
) -> u32
    ensures { result ≡ verdict_packed (judge_event (policy_in table.now) operation target
        (record { stack = stack.entry.now; uid = uid; gid = gid; namespace = namespace })
        (record { stack = allocation.now; uid = allocation_uid; gid = allocation_gid; namespace = allocation_namespace })) }
{
    export::dovetenon_judge_known(
        table,
        operation,
        target,
        stack,
        uid,
        gid,
        namespace,
        allocation,
        allocation_uid,
        allocation_gid,
        allocation_namespace,
    )
}

#[unsafe(no_mangle)]
pub extern "C" fn dovetenon_overlap(table: &[u16], witness: &mut [u16]) -> u64
    ensures { ReportedAs table.now witness.old witness.new result }
{
    export::dovetenon_overlap(table, witness)
}

#[unsafe(no_mangle)]
pub extern "C" fn dovetenon_page(text: &[u8]) -> u64
    ensures { result ≡ reading_packed (reading_of (text_page text.now)) }
{
    export::dovetenon_page(text)
}

#[unsafe(no_mangle)]
pub extern "C" fn dovetenon_read(text: &[u8], table: &mut [u16]) -> u64
    ensures value { result ≡ reading_packed (read_answer text.now table.old) }
    ensures table_after { table.new ≡ read_leaves text.now table.old }
{
    export::dovetenon_read(text, table)
}

#[unsafe(no_mangle)]
pub extern "C" fn dovetenon_fill(text: &[u8], out: &mut [u8]) -> u64
    ensures value { result ≡ filling_packed (fill_answer text.now out.old) }
    ensures out_after { out.new ≡ fill_leaves text.now out.old }
{
    export::dovetenon_fill(text, out)
}

#[unsafe(no_mangle)]
pub extern "C" fn dovetenon_name(text: &[u8], map: u16, domain: usize) -> u64
    ensures { result ≡ name_packed (lookup_numbered text.now map domain) }
{
    export::dovetenon_name(text, map, domain)
}

#[unsafe(no_mangle)]
pub extern "C" fn dovetenon_list(text: &[u8], list: &mut [u32]) -> u64
    ensures value { result ≡ listing_packed (list_answer text.now) }
    ensures list_after { list.new ≡ list_leaves text.now list.old }
{
    export::dovetenon_list(text, list)
}

#[unsafe(no_mangle)]
pub extern "C" fn dovetenon_find(text: &[u8], list: &[u32], kind: u32, name: &[u8]) -> usize
    ensures { result ≡ number_of text.now list.now kind name.now }
{
    export::dovetenon_find(text, list, kind, name)
}
