//! Facts as they are read.

ghost use Rattle.std.specs.Prelude.{◌≡◌, ◌<◌, length, option_map, IfOk, IfSome};
ghost use Rattle.gq_tag.specs.Tag.{file_of};
ghost use Rattle.gq_lines.specs.Words.{words_after};
ghost use Rattle.gq_cluster.specs.Facts.{Kept, Had};
ghost use Rattle.gq_node.specs.Recalling.{tenant_of};
ghost use Rattle.gq_node.specs.Tables.{fact_of};
ghost use Rattle.gq_facts.specs.Facts.{begun_by, numbered_by, session_fact_by, file_copy_by, copy_fact_by, own_fact_by, fact_by, fact_of_line};

use gq_desk::Plan;
use gq_lines::{first_word, is_end, next_word};
use gq_memory::OutOfMemory;
use gq_node::Fact;
use gq_tag::{FileId, StoredCopy};
use gq_wire::{read_copy, take_byte, take_long, take_number};
use std::alloc::Global;

// Up to which number those of the session's operations are reserved.
fn began(tenant: u8, session: u8, text: &[u8]) -> Option<Fact>
    ensures { result ≡ option_map (fact_of tenant) (begun_by session (words_after text.now)) }
{
    let (op, rest) = take_number(text)?;
    if !is_end(rest) {
        return None;
    }
    Some(Fact::Began {
        tenant,
        session,
        op,
    })
}

// And the numbers of its tags.
fn numbered(tenant: u8, session: u8, text: &[u8]) -> Option<Fact>
    ensures { result ≡ option_map (fact_of tenant) (numbered_by session (words_after text.now)) }
{
    let (number, rest) = take_long(text)?;
    if !is_end(rest) {
        return None;
    }
    Some(Fact::Numbered {
        tenant,
        session,
        number,
    })
}

// A fact of the session.
fn session_fact(verb: &[u8], tenant: u8, session: u8, text: &[u8]) -> Option<Fact>
    ensures { result ≡ option_map (fact_of tenant) (session_fact_by verb.now session (words_after text.now)) }
{
    if verb == b"began".as_slice() {
        began(tenant, session, text)
    } else if verb == b"numbered".as_slice() {
        numbered(tenant, session, text)
    } else {
        None
    }
}

// A file of the tenant, and its copy.
fn take_copy(
    alloc: Global,
    tenant: u8,
    text: &[u8],
) -> Result<Option<(FileId, StoredCopy)>, OutOfMemory>
    ensures { IfOk result (λ read. read ≡ option_map (λ x. (file_of tenant x.0, x.1)) (file_copy_by (words_after text.now))) }
{
    let Some((volume, rest)) = take_number(text) else {
        return Ok(None);
    };
    let Some((file, rest)) = take_number(rest) else {
        return Ok(None);
    };
    match read_copy(alloc, rest)? {
        Some(copy) => Ok(Some((
            FileId {
                tenant,
                volume,
                file,
            },
            copy,
        ))),
        None => Ok(None),
    }
}

// The copy that a file has.
fn kept(alloc: Global, tenant: u8, text: &[u8]) -> Result<Option<Fact>, OutOfMemory>
    ensures { IfOk result (λ fact. fact ≡ option_map (fact_of tenant) (copy_fact_by (λ file copy. Kept file copy) (words_after text.now))) }
{
    match take_copy(alloc, tenant, text)? {
        Some((file, copy)) => Ok(Some(Fact::Kept { file, copy })),
        None => Ok(None),
    }
}

// The copy that the server was given of a file.
fn had(alloc: Global, tenant: u8, text: &[u8]) -> Result<Option<Fact>, OutOfMemory>
    ensures { IfOk result (λ fact. fact ≡ option_map (fact_of tenant) (copy_fact_by (λ file copy. Had file copy) (words_after text.now))) }
{
    match take_copy(alloc, tenant, text)? {
        Some((file, copy)) => Ok(Some(Fact::Had { file, copy })),
        None => Ok(None),
    }
}

// The fact of the tenant.
fn own_fact(
    alloc: Global,
    verb: &[u8],
    tenant: u8,
    text: &[u8],
) -> Result<Option<Fact>, OutOfMemory>
    ensures { IfOk result (λ fact. fact ≡ fact_by verb.now tenant (words_after text.now)) }
{
    if verb == b"kept".as_slice() {
        return kept(alloc, tenant, text);
    }
    if verb == b"had".as_slice() {
        return had(alloc, tenant, text);
    }
    match take_byte(text) {
        Some((session, rest)) => Ok(session_fact(verb, tenant, session, rest)),
        None => Ok(None),
    }
}

/// The fact that a line of a journal says, without its newline; none where it says none of a tenant of the plan. Fails where memory
/// is wanting for the content of a copy.
#[tactic(auto, unfolding(crate::specs::Facts::fact_of_words))]
pub fn read_fact(alloc: Global, line: &[u8], plan: &Plan) -> Result<Option<Fact>, OutOfMemory>
    ensures fact { IfOk result (λ fact. fact ≡ fact_of_line plan.now line.now) }
    ensures tenant { IfOk result (λ fact. IfSome fact (λ fact. tenant_of fact < length plan.now.rows)) }
{
    let (verb, rest) = first_word(line);
    let Some((name, rest)) = next_word(rest) else {
        return Ok(None);
    };
    let Some(tenant) = plan.find_word(name) else {
        return Ok(None);
    };
    own_fact(alloc, verb, tenant, rest)
}
