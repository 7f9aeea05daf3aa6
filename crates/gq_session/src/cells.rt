//! The next change of the list, at the board and at its server's cell.
ghost use Rattle.std.specs.Prelude.{◌≡◌, IfErr, OnOk, OnErr};
ghost use Rattle.gq_session.specs.Agendas.{ChangesCell, IsChangeFault};
ghost use Rattle.gq_session.specs.Faults.{NoGate};

use crate::records::LiveFault;
use crate::schedule::Schedule;
use gq_cell::Cell;
use std::sync::ledger::Ledger;

/// Does the next change of the list, at the board and then at the cell, which has to be its server's. One that is already
/// so at the cell or at the board is passed by. What the board is told as seen is the cell's last stamp.
///
/// The faults are those of [`LiveFault`]: `Memory`, `Stamps`, and `Letter` where the change is of another server.
pub fn change_cell<L: Ledger>(schedule: &mut Schedule, cell: &mut Cell<L>) -> Result<(), LiveFault>
    ensures done { OnOk result (ChangesCell schedule.old schedule.new cell.old cell.new) }
    ensures fault { IfErr result (λ fault. IsChangeFault schedule.old cell.old fault) }
    ensures cell { OnErr result (cell.new ≡ cell.old) }
    ensures list { schedule.new.list.items ≡ schedule.old.list.items }
    ensures gate { NoGate result }
{
    let Some(next) = schedule.next() else {
        return Ok(());
    };
    if next.server != u32::from(cell.server()) {
        return Err(LiveFault::Letter);
    }
    if next.up == cell.up() {
        schedule.pass_by()?;
        return Ok(());
    }
    if let Some(stamp) = schedule.change(next, cell.last())? {
        cell.set_up(next.up, stamp)?;
    }
    Ok(())
}
