//! Chunks that are damaged at a node: its peers are asked for them.
//!
//! Without space nothing is mended, and it is asked for again. A content that is found again after it was asked for in vain
//! counts once more.

ghost use Rattle.std.specs.Prelude.{IfOk, IfSome};
ghost use Rattle.gq_depot.specs.Seeking.{sought_of, AreAsks};

use crate::ChunkAnswer;
use crate::search::next_of;
use gq_depot::{Ask, ListedChunk, MOST_CHUNK, Seeking};
use gq_memory::{GrowVec, OutOfMemory};
use gq_stock::{Found, Keeping};
use std::alloc::Global;

// So many damaged chunks are known at once. Another one is found again later.
const MOST_KNOWN: usize = 256;

// So many are asked for at once.
const MOST_AT_ONCE: usize = 4;

// So many ticks are passed over behind one at which some were asked for.
const WAIT: u32 = 1;

// So often each peer is asked for one.
const MOST_IN_VAIN: u32 = 4;

// A chunk that a read found damaged.
#[derive(Clone, Copy)]
struct Damaged {
    tenant: usize,
    session: u32,
    number: u64,
    // how often a peer was asked for it
    asked: u32,
}

/// Which chunks are known to be damaged, and who is asked for them next. A start forgets it: they are found again.
#[derive(Drop)]
pub(crate) struct Mending {
    // those that are asked for next are first
    known: Vec<Damaged>,
    // the row of the node that was asked last
    row: usize,
    // at so many ticks nothing is asked
    wait: u32,
    /// How many were found damaged.
    pub(crate) found: u64,
    /// How many of them were mended.
    pub(crate) mended: u64,
}

/// What is asked of a peer at a tick.
#[derive(Drop)]
pub(crate) struct Call {
    /// The row of the peer.
    pub(crate) row: usize,
    /// The place of the tenant.
    pub(crate) tenant: usize,
    /// What is sought of the tenant.
    pub(crate) seeking: Seeking,
    /// What is asked for.
    pub(crate) asks: Vec<Ask>,
}

impl Mending {
    /// None is known.
    pub(crate) fn new(alloc: Global) -> Mending {
        Mending {
            known: Vec::new(alloc),
            row: 0,
            wait: 0,
            found: 0,
            mended: 0,
        }
    }

    // The place of the chunk among those that are known.
    fn place_of(&self, tenant: usize, session: u32, number: u64) -> Option<usize> {
        self.known.as_slice().iter().position(|it| {
            it.tenant == tenant && it.session == session && it.number == number
        })
    }

    /// A read found the chunk damaged. Where memory is wanting it is found again later.
    pub(crate) fn note(&mut self, tenant: usize, session: u32, number: u64) {
        if self.known.len() >= MOST_KNOWN || self.place_of(tenant, session, number).is_some() {
            return;
        }
        let one = Damaged {
            tenant,
            session,
            number,
            asked: 0,
        };
        if self.known.grow(one).is_ok() {
            self.found = self.found.saturating_add(1);
        }
    }

    /// This was told of the tenant's chunks.
    pub(crate) fn hear(&mut self, tenant: usize, answer: &ChunkAnswer) {
        match answer {
            ChunkAnswer::Kept {
                session,
                number,
                told: Keeping::Damaged,
                ..
            }
            | ChunkAnswer::Found {
                session,
                number,
                found: Found::Damaged,
                ..
            } => self.note(tenant, *session, *number),
            _ => {}
        }
    }

    /// Whether the chunk is known to be damaged.
    pub(crate) fn knows(&self, tenant: usize, session: u32, number: u64) -> bool {
        self.place_of(tenant, session, number).is_some()
    }

    /// The chunk is mended.
    pub(crate) fn settle(&mut self, tenant: usize, session: u32, number: u64) {
        if let Some(place) = self.place_of(tenant, session, number) {
            if place < self.known.len() {
                let _settled = self.known.remove(place);
                self.mended = self.mended.saturating_add(1);
            }
        }
    }

    // Takes the first ones of one session out that are known.
    fn take_some(&mut self, alloc: Global) -> Result<Vec<Damaged>, OutOfMemory> {
        let mut taken: Vec<Damaged> = Vec::new(alloc);
        for _ in 0..MOST_AT_ONCE {
            let place = match taken.first() {
                Some(first) => {
                    let tenant = first.tenant;
                    let session = first.session;
                    self.known
                        .as_slice()
                        .iter()
                        .position(|it| it.tenant == tenant && it.session == session)
                }
                None => Some(0),
            };
            match place {
                Some(place) if place < self.known.len() => {
                    taken.grow(self.known[place])?;
                    let _taken = self.known.remove(place);
                }
                _ => break,
            }
        }
        Ok(taken)
    }

    // Puts them behind all others, but for those that were asked for often enough.
    fn put_back(&mut self, taken: &[Damaged], rows: usize) -> Result<(), OutOfMemory> {
        for one in taken {
            let asked = one.asked.saturating_add(1);
            if (asked as usize) < (MOST_IN_VAIN as usize).saturating_mul(rows) {
                self.known.grow(Damaged {
                    tenant: one.tenant,
                    session: one.session,
                    number: one.number,
                    asked,
                })?;
            }
        }
        Ok(())
    }

    /// At a tick: what is asked of the next peer, of so many rows.
    pub(crate) fn tick(&mut self, alloc: Global, rows: usize) -> Result<Option<Call>, OutOfMemory>
        ensures { IfOk result (λ call. IfSome call (λ it. AreAsks (sought_of it.seeking) it.asks.items)) }
    {
        if self.wait > 0 {
            self.wait -= 1;
            return Ok(None);
        }
        let taken = self.take_some(alloc)?;
        let (tenant, session) = match taken.first() {
            Some(first) => (first.tenant, first.session),
            None => return Ok(None),
        };
        let mut left = Vec::new(alloc);
        for one in taken.as_slice() {
            left.grow(ListedChunk {
                number: one.number,
                size: MOST_CHUNK as u64,
            })?;
        }
        self.put_back(taken.as_slice(), rows)?;
        self.wait = WAIT;
        self.row = next_of(self.row, rows);
        let mut seeking = Seeking {
            session,
            after: 0,
            is_all: false,
            left,
            asked: 0,
        };
        let asks = seeking.ask_more(alloc)?;
        Ok(Some(Call {
            row: self.row,
            tenant,
            seeking,
            asks,
        }))
    }
}
