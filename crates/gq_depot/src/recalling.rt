//! Facts of an earlier run, read.

ghost use Rattle.std.specs.Prelude.{◌≡◌, ◌+◌, ◌<◌, ◌≤◌, true, false, Some, length, IfOk, OnOk};
ghost use Rattle.gq_shelf.specs.Places.{long_at};

use crate::depot::line_bytes;
use crate::{ChunkFact, Depot, MOST_CHUNK};
use gq_memory::{OutOfMemory, filled};
use gq_shelf::Place;
use gq_stock::Chunk;
use std::alloc::Global;

impl Depot {
    ghost use Rattle.gq_depot.specs.Depots.{LeadsTo, reads_fact};

    // Puts the chunk into the session at this place. What is more in all than 64 bits tell is refused as what fills the memory.
    fn put_at(
        &mut self,
        alloc: Global,
        place: usize,
        session: u32,
        number: u64,
        is_sure: bool,
        at: Place,
    ) -> Result<(), OutOfMemory>
        requires there { place < length self.old.stock.sessions.items }
        requires number { session ≡ place + 1 }
        requires long { long_at at ≤ MOST_CHUNK }
        ensures { OnOk result (LeadsTo self.old (Some (ChunkFact.Put session number is_sure at)) self.new) }
    {
        self.in_journal = self.in_journal.saturating_add(line_bytes(&at));
        let chunk = Chunk { place: at, is_sure };
        let is_put = self.stock.sessions[place].put(number, chunk)?;
        if !is_put {
            let none = filled(alloc, 0u8, usize::MAX)?;
            let _long = none.as_slice().len();
            unreachable!()
        }
        Ok(())
    }

    // The server lacks nothing any more.
    pub(crate) fn lack_nothing(&mut self)
        ensures leads { LeadsTo self.old (Some ChunkFact.Filled) self.new }
        ensures stock { self.new.stock ≡ self.old.stock }
    {
        self.lacks = false;
        self.gone.clear();
    }

    /// Reads a fact of an earlier run. False: it names a session that the tenant has not, a content that is too long, or numbers above the floor that are
    /// forgotten; nothing changes then. Where memory is wanting the depot is given up.
    pub fn recall(&mut self, alloc: Global, fact: ChunkFact) -> Result<bool, OutOfMemory>
        ensures read { IfOk result (λ is_read. is_read ≡ reads_fact (length self.old.stock.sessions.items) fact) }
        ensures leads { IfOk result (λ is_read. is_read ≡ true → LeadsTo self.old (Some fact) self.new) }
        ensures same { IfOk result (λ is_read. is_read ≡ false → self.new ≡ self.old) }
    {
        match fact {
            ChunkFact::Put {
                session,
                number,
                is_sure,
                place: at,
            } => {
                let Some(place) = self.place_of(session) else {
                    return Ok(false);
                };
                if at.len() > MOST_CHUNK {
                    return Ok(false);
                }
                self.put_at(alloc, place, session, number, is_sure, at)?;
                Ok(true)
            }
            ChunkFact::Forgot {
                session,
                floor,
                run,
            } => {
                let Some(place) = self.place_of(session) else {
                    return Ok(false);
                };
                if run.last > floor {
                    return Ok(false);
                }
                let _told = self.forget_at(place, session, floor, run)?;
                Ok(true)
            }
            ChunkFact::Filled => {
                self.lack_nothing();
                Ok(true)
            }
        }
    }
}
