//! A line that comes to a node.

ghost use Rattle.std.specs.Prelude.{◌≡◌, ◌*◌, ◌<◌, ◌≤◌, length, nat_lt, Some, IfOk};
ghost use Rattle.gq_lines.specs.Words.{words_of, words_after, number_of};
ghost use Rattle.gq_text.specs.Input.{place_named};
ghost use Rattle.gq_node.specs.declared.lost.TheConstants.{NODE_NUMBERS};
ghost use Rattle.gq_wire.specs.Incoming.{is_only, is_tick, is_greet, behind_name, node_words, from_node, from_tenant, incoming_from, incoming_of_words, incoming_of, most_blocks_of, longest_line, FitsPlan};

use crate::fetching::{fetch, fetched, number_behind};
use crate::letters::{letter, short_letter};
use crate::requests::{look, request};
use gq_desk::{Plan, TenantRow};
use gq_lines::{first_word, is_end, next_word, number};
use gq_memory::OutOfMemory;
use gq_model::Line;
use gq_node::{NODE_NUMBERS, Short};
use gq_tag::{BLOCK_BYTES, FileId, Message, StoredCopy};
use std::alloc::Global;

/// The most bytes of a line, its newline not counted, where no content of the plan needs more.
pub const MOST_LINE: usize = 4095;

/// The most bytes of a line beside the digits of a content that is as long as a file of the plan may be.
const BESIDE_CONTENT: usize = 255;

/// This program speaks all forms of lines up to this one, those between nodes and those of tenants. Another number is told to other nodes and to
/// tenants once a form comes that programs of before can't read.
pub const LINE_FORM: u32 = 3;

/// What a line is to a node.
#[derive(Drop)]
pub enum Incoming {
    /// What the tenant at this place in the plan asks, and the number that its operation is to have.
    Request {
        tenant: u8,
        op: u32,
        line: Line,
    },
    /// That tenant asks what it has.
    Plan {
        tenant: u8,
    },
    /// That tenant asks, with this number, what the server has of a volume.
    Look {
        tenant: u8,
        mark: u64,
        volume: u32,
    },
    /// A line of that tenant whose body has no form.
    Bad {
        tenant: u8,
    },
    /// A letter from the node of this number.
    Letter {
        from: u16,
        message: Message,
    },
    /// A letter in a short form from the node of this number.
    ShortLetter {
        from: u16,
        short: Short,
    },
    /// The node of this number, which is new, asks whether this one's plan has it, and so many losses or more.
    Joins {
        from: u16,
        losses: u32,
    },
    /// The node of this number tells that its plan has this one, and so many losses.
    Joined {
        from: u16,
        losses: u32,
    },
    /// The node of this number tells that it speaks all forms of lines between nodes up to this one.
    Speaks {
        from: u16,
        form: u32,
    },
    /// The node of this number asks for this one's copy of the file.
    Fetch {
        from: u16,
        file: FileId,
    },
    /// The node of this number gives its copy of the file.
    Fetched {
        from: u16,
        file: FileId,
        copy: StoredCopy,
    },
    /// A tick.
    Tick,
    /// The node is to tell the others which forms it speaks.
    Greet,
    /// It is passed over: it is for another node, from nobody of the plan, too long, or a line between nodes without form.
    Nothing,
}

// The words are this one, and no more.
fn is_only(text: &[u8], only: &[u8]) -> bool
    ensures { result ≡ is_only only.now (words_after text.now) }
{
    match next_word(text) {
        Some((word, rest)) => word == only && is_end(rest),
        None => false,
    }
}

// The line from the node of that number about the tenant, behind the tenant's name.
fn behind_name(
    alloc: Global,
    from: u16,
    tenant: u8,
    text: &[u8],
    here: u16,
) -> Result<Incoming, OutOfMemory>
    ensures { IfOk result (λ incoming. incoming ≡ behind_name here from (Some tenant) (words_after text.now)) }
{
    if let Some(file) = fetch(tenant, text) {
        return Ok(Incoming::Fetch { from, file });
    }
    if let Some((file, copy)) = fetched(alloc, tenant, text)? {
        return Ok(Incoming::Fetched { from, file, copy });
    }
    if let Some(message) = letter(alloc, text, here, from, tenant)? {
        return Ok(Incoming::Letter { from, message });
    }
    match short_letter(text, here, from, tenant) {
        Some(short) => Ok(Incoming::ShortLetter { from, short }),
        None => Ok(Incoming::Nothing),
    }
}

// The line from the node of that number, behind its addresses, where it is no tick and asks for no greeting.
fn node_words(
    alloc: Global,
    from: u16,
    text: &[u8],
    plan: &Plan,
    here: u16,
) -> Result<Incoming, OutOfMemory>
    ensures incoming { IfOk result (λ incoming. incoming ≡ node_words plan.now here from (words_after text.now)) }
    ensures fits { IfOk result (λ incoming. FitsPlan plan.now incoming) }
{
    let Some((word, rest)) = next_word(text) else {
        return Ok(Incoming::Nothing);
    };
    if let Some(losses) = number_behind(b"joins", word, rest) {
        return Ok(Incoming::Joins { from, losses });
    }
    if let Some(losses) = number_behind(b"joined", word, rest) {
        return Ok(Incoming::Joined { from, losses });
    }
    if let Some(form) = number_behind(b"speaks", word, rest) {
        return Ok(Incoming::Speaks { from, form });
    }
    match plan.find_word(word) {
        Some(tenant) => behind_name(alloc, from, tenant, rest, here),
        None => Ok(Incoming::Nothing),
    }
}

// The line from the node of that number, if one may have it, behind its addresses.
fn from_node(
    alloc: Global,
    from: u32,
    text: &[u8],
    plan: &Plan,
    here: u16,
) -> Result<Incoming, OutOfMemory>
    ensures incoming { IfOk result (λ incoming. incoming ≡ from_node plan.now here from (words_after text.now)) }
    ensures fits { IfOk result (λ incoming. FitsPlan plan.now incoming) }
{
    if from >= NODE_NUMBERS {
        return Ok(Incoming::Nothing);
    }
    let from = from as u16;
    if from == here && is_only(text, b"tick") {
        return Ok(Incoming::Tick);
    }
    if from == here && is_only(text, b"greet") {
        return Ok(Incoming::Greet);
    }
    node_words(alloc, from, text, plan, here)
}

// The line from the tenant of that name, if there is one, behind its addresses.
fn from_tenant(
    alloc: Global,
    name: &[u8],
    text: &[u8],
    plan: &Plan,
) -> Result<Incoming, OutOfMemory>
    ensures incoming { IfOk result (λ incoming. incoming ≡ from_tenant (place_named plan.now name.now) (words_after text.now)) }
    ensures fits { IfOk result (λ incoming. FitsPlan plan.now incoming) }
{
    let Some(tenant) = plan.find_word(name) else {
        return Ok(Incoming::Nothing);
    };
    if is_only(text, b"plan") {
        return Ok(Incoming::Plan { tenant });
    }
    if let Some((mark, volume)) = look(text) {
        return Ok(Incoming::Look {
            tenant,
            mark,
            volume,
        });
    }
    match request(alloc, text)? {
        Some((op, line)) => Ok(Incoming::Request { tenant, op, line }),
        None => Ok(Incoming::Bad { tenant }),
    }
}

// The line from whom the word names, behind its addresses.
fn from_whom(
    alloc: Global,
    word: &[u8],
    text: &[u8],
    plan: &Plan,
    here: u16,
) -> Result<Incoming, OutOfMemory>
    ensures incoming { IfOk result (λ incoming. incoming ≡ incoming_from plan.now here (number_of word.now) word.now (words_after text.now)) }
    ensures fits { IfOk result (λ incoming. FitsPlan plan.now incoming) }
{
    match number(word) {
        Some(from) => from_node(alloc, from, text, plan, here),
        None => from_tenant(alloc, word, text, plan),
    }
}

// The line, however long it is.
#[tactic(auto, unfolding(crate::specs::Incoming::incoming_of_words))]
fn read_words(alloc: Global, line: &[u8], plan: &Plan, here: u16) -> Result<Incoming, OutOfMemory>
    ensures incoming { IfOk result (λ incoming. incoming ≡ incoming_of_words plan.now here (words_of line.now)) }
    ensures fits { IfOk result (λ incoming. FitsPlan plan.now incoming) }
{
    let (to, rest) = first_word(line);
    if number(to) != Some(u32::from(here)) {
        return Ok(Incoming::Nothing);
    }
    match next_word(rest) {
        Some((from, text)) => from_whom(alloc, from, text, plan, here),
        None => Ok(Incoming::Nothing),
    }
}

// The most blocks that a file of these tenants may have.
fn most_blocks_of(rows: &[TenantRow]) -> u32
    ensures { result ≡ most_blocks_of rows.now }
{
    let mut most = 0;
    for row in rows {
        most = row.most_blocks.max(most);
    }
    most
}

/// The most bytes of a line between nodes of the plan, or from a tenant to one, its newline not counted: a file's content
/// has two digits for each byte.
pub fn longest_line(plan: &Plan) -> usize
    ensures value { result ≡ longest_line plan.now }
    ensures least { MOST_LINE ≤ result }
{
    let most = most_blocks_of(plan.rows()) as usize;
    MOST_LINE.max(2 * BLOCK_BYTES * most + BESIDE_CONTENT)
}

// Whether a line of so many bytes is too long. Most are short, whatever the plan.
fn is_too_long(plan: &Plan, count: usize) -> bool
    ensures { result ≡ nat_lt (longest_line plan.now) count }
{
    if count <= MOST_LINE {
        return false;
    }
    count > longest_line(plan)
}

/// What the line, which has no newline, is to the node of this number. Only a content takes memory.
pub fn read_incoming(
    alloc: Global,
    line: &[u8],
    plan: &Plan,
    here: u16,
) -> Result<Incoming, OutOfMemory>
    ensures incoming { IfOk result (λ incoming. incoming ≡ incoming_of plan.now here line.now) }
    ensures fits { IfOk result (λ incoming. FitsPlan plan.now incoming) }
{
    if is_too_long(plan, line.len()) {
        return Ok(Incoming::Nothing);
    }
    read_words(alloc, line, plan, here)
}
