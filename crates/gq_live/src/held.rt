//! A server's cell as its lock keeps it.
ghost use Rattle.std.specs.Prelude.{◌≡◌, ◌↔◌, true, IfOk, IfErr, OnErr, IsTrue};
ghost use Rattle.gq_cell.specs.Serving.{Serves};
ghost use Rattle.gq_session.specs.Faults.{NoGate};
ghost use Rattle.gq_live.specs.Faults.{IsFor, IsServeFault};

use crate::thread_ends::CellRecord;
use gq_cell::{Cell, CellRefused, Letter, Served, Share};
use gq_session::{Gate, LiveFault, Schedule, change_cell};
use gq_tag::Message;
use std::sync::ledger::Ledger;

/// A cell behind its lock. Whoever has it holds the lock; and its letters are served by one call, which tells the gate so.
#[derive(Drop)]
pub(crate) struct HeldCell<L: Ledger> {
    cell: Cell<L>,
}

// Whether the message is one that the server may be asked.
fn is_for(message: &Message, server: u8) -> bool
    ensures { IsTrue result ↔ IsFor server message.now }
{
    message.server == server && message.to_server()
}

impl<L: Ledger> HeldCell<L> {
    // The cell, behind its lock from now on.
    pub(crate) fn new(cell: Cell<L>) -> HeldCell<L>
        ensures { result.cell ≡ cell }
    {
        HeldCell { cell }
    }

    // Tells the gate of the hold, and serves the letter.
    pub(crate) fn serve<G: Gate>(
        &mut self,
        gate: &G,
        share: &mut Share<L>,
        letter: &Letter,
    ) -> Result<Served, LiveFault>
        ensures served { IfOk result (Serves letter.now self.old.cell self.new.cell share.old share.new) }
        ensures fault { IfErr result (IsServeFault self.old.cell letter.now) }
        ensures same { OnErr result ((self.new.cell ≡ self.old.cell) × (share.new ≡ share.old)) }
        ensures gate { G.never ≡ true → NoGate result }
    {
        let cell = &mut self.cell;
        if gate.inside(u32::from(cell.server())).is_err() {
            return Err(LiveFault::Gate);
        }
        if !is_for(&letter.message, cell.server()) {
            return Err(LiveFault::Letter);
        }
        match cell.serve(share, letter) {
            Ok(served) => Ok(served),
            Err(CellRefused::Memory(refused)) => Err(LiveFault::Memory(refused)),
            Err(CellRefused::Stamps) => Err(LiveFault::Stamps),
            Err(CellRefused::File | CellRefused::Long) => Err(LiveFault::Letter),
        }
    }

    // Does the next change of the list, at the board and then at the cell.
    pub(crate) fn change(&mut self, schedule: &mut Schedule) -> Result<(), LiveFault>
        ensures { NoGate result }
    {
        change_cell(schedule, &mut self.cell)
    }

    // The journal, once the workers have ended.
    pub(crate) fn record(self, one: Share<L>, two: Share<L>) -> CellRecord
        requires { L.parts ≡ 2 }
    {
        let server = self.cell.server();
        let journal = self.cell.close(one, two);
        CellRecord { server, journal }
    }
}
