//! What a line behind a plan says: a volume that is opened, what a tenant may have of chunks, a node that was lost, or a tenant that is gone.

ghost use Rattle.std.specs.Prelude.{◌≡◌, ◌<◌, length, None, Some, IfOk, IfSome, MatchOption};
ghost use Rattle.gq_lines.specs.Words.{words_of};
ghost use Rattle.gq_text.specs.Input.{event_of};
ghost use Rattle.gq_setup.specs.Setups.{event_opens, many_from, many_told, word_behind, room_from, room_told, kib_of, is_gone};

use gq_desk::{Name, Plan};
use gq_lines::{first_word, is_end, next_word, number};
use gq_memory::OutOfMemory;
use gq_model::{Event, Line};
use gq_text::{TextFault, read_line};
use std::alloc::Global;
use thiserror::Error;

/// The most nodes that may be lost, one after another.
pub const MOST_LOSSES: usize = 255;

/// The most tenants that may be gone.
pub const MOST_GONE: usize = 1024;

/// A volume that is opened at each start: so many files of so many blocks each.
#[derive(Clone, Copy, Debug, PartialEq, Eq)]
pub struct Opening {
    /// The tenant's place in the plan.
    pub tenant: u8,
    pub files: u32,
    pub blocks: u32,
}

/// How many KiB of chunks a tenant may have at each server.
#[derive(Clone, Copy, Debug, PartialEq, Eq)]
pub struct ChunkRoom {
    /// The tenant's place in the plan.
    pub tenant: u8,
    pub kib: u32,
}

/// Why a text tells no setup: the first line at fault, numbered from 1, or want of memory, wherever it came.
#[derive(Debug, Drop, Error)]
pub enum SetupFault {
    /// The line is none of a plan.
    #[error("line {line}: {fault}")]
    Plan { line: u64, fault: TextFault },
    /// The line, behind the plan, opens no volume, gives no room for chunks, and tells no loss and no tenant that is gone.
    #[error("line {0}: live")]
    Live(u64),
    /// The volume of the line can't be opened: its files or their blocks are too few or too many.
    #[error("line {0}: open: files or blocks of a file")]
    OpenSize(u64),
    /// The volume of the line can't be opened: the tenant has as many volumes as it may have.
    #[error("line {0}: open: volumes")]
    OpenVolumes(u64),
    /// The volume of the line can't be opened: it takes more blocks than the `free` ones that are left of the tenant's share.
    #[error("line {line}: open: share, {free} blocks are left")]
    OpenShare { line: u64, free: u32 },
    /// The line gives no room for chunks: there is no such tenant, the room is none or no number, or the tenant has room by a line before.
    #[error("line {0}: chunks")]
    Chunks(u64),
    /// The node of the line can't be lost: there is no such place, the grid has one row, or too many nodes were lost before, in all or
    /// there.
    #[error("line {0}: replace")]
    Replace(u64),
    /// The tenant of the line can't be gone: the plan has a tenant of that name, the word is no name, it was told by a line before, or too
    /// many were.
    #[error("line {0}: gone")]
    Gone(u64),
    /// Want of memory.
    #[error("out of memory")]
    Memory(OutOfMemory),
}

impl From<OutOfMemory> for SetupFault {
    ghost use Rattle.gq_setup.specs.declared.openings.SetupFault.TheVariants.{Memory};

    ghost from_gives = { λ m e. e ≡ Memory m };

    fn from(refused: OutOfMemory) -> SetupFault {
        SetupFault::Memory(refused)
    }
}

// The opening of an event.
fn opening_of(event: &Event) -> Option<Opening>
    ensures { result ≡ event_opens event.now }
{
    match event {
        Event::Tenant {
            tenant,
            line: Line::NewVolume { files, blocks },
        } => Some(Opening {
            tenant: *tenant,
            files: *files,
            blocks: *blocks,
        }),
        _ => None,
    }
}

// The opening of a line, if it is one.
pub(crate) fn read_opening(
    alloc: Global,
    plan: &Plan,
    line: &[u8],
) -> Result<Option<Opening>, OutOfMemory>
    ensures opening { IfOk result (λ opening. opening ≡ event_opens (event_of plan.now line.now)) }
    ensures within { IfOk result (λ opening. IfSome opening (λ opening. opening.tenant < length plan.now.rows)) }
{
    let event = read_line(alloc, line, plan)?;
    Ok(opening_of(&event))
}

// The volume of these words, and how many of it: not none.
fn many_from(
    tenant: Option<u8>,
    files: &[u8],
    blocks: &[u8],
    times: &[u8],
) -> Option<(Opening, u32)>
    ensures { result ≡ many_from tenant files.now blocks.now times.now }
{
    let opening = Opening {
        tenant: tenant?,
        files: number(files)?,
        blocks: number(blocks)?,
    };
    let times = number(times)?;
    if times == 0 {
        return None;
    }
    Some((opening, times))
}

// The volume of a line `T open FILES BLOCKS times N`, and N, if it is such a line.
pub(crate) fn many_told(plan: &Plan, line: &[u8]) -> Option<(Opening, u32)>
    ensures many { result ≡ many_told plan.now (words_of line.now) }
    ensures within { IfSome result (λ many. many.0.tenant < length plan.now.rows) }
{
    let (name, rest) = first_word(line);
    let (verb, rest) = next_word(rest)?;
    let (files, rest) = next_word(rest)?;
    let (blocks, rest) = next_word(rest)?;
    let (word, rest) = next_word(rest)?;
    let (times, rest) = next_word(rest)?;
    if !is_end(rest) {
        return None;
    }
    if verb != b"open".as_slice() {
        return None;
    }
    if word != b"times".as_slice() {
        return None;
    }
    many_from(plan.find_word(name), files, blocks, times)
}

// The room of these words.
fn room_from(tenant: Option<u8>, kib: &[u8]) -> Option<ChunkRoom>
    ensures { result ≡ room_from tenant kib.now }
{
    Some(ChunkRoom {
        tenant: tenant?,
        kib: number(kib)?,
    })
}

// What a line `T chunks KIB` says, if it is such a line: the room for chunks, or none where its tenant or its number is wrong.
pub(crate) fn room_told(plan: &Plan, line: &[u8]) -> Option<Option<ChunkRoom>>
    ensures room { result ≡ room_told plan.now (words_of line.now) }
    ensures within { IfSome result (λ room. IfSome room (λ room. room.tenant < length plan.now.rows)) }
{
    let (name, rest) = first_word(line);
    let (verb, rest) = next_word(rest)?;
    let (kib, after) = next_word(rest)?;
    if !is_end(after) {
        return None;
    }
    if verb != b"chunks".as_slice() {
        return None;
    }
    Some(room_from(plan.find_word(name), kib))
}

// How many KiB of chunks the tenant may have at each server by these, 0 where none is the tenant's.
pub(crate) fn kib_of(rooms: &[ChunkRoom], tenant: u8) -> u32
    ensures { result ≡ kib_of rooms.now tenant }
{
    for room in rooms {
        if room.tenant == tenant {
            return room.kib;
        }
    }
    0
}

// Whether a tenant of this name is one of these.
pub(crate) fn is_gone(gone: &[Name], name: &[u8]) -> bool
    ensures { result ≡ is_gone gone.now name.now }
{
    gone.iter().any(|other| other.is(name))
}

// The word behind this verb, if the line has these two words.
pub(crate) fn word_behind<'x>(verb: &[u8], line: &'x [u8]) -> Option<&'x [u8]>
    ensures { MatchOption result (word_behind verb.now (words_of line.now) ≡ None) (λ word. word_behind verb.now (words_of line.now) ≡ Some word.now) }
{
    let (first, rest) = first_word(line);
    let (word, rest) = next_word(rest)?;
    if first != verb || !is_end(rest) {
        return None;
    }
    Some(word)
}
