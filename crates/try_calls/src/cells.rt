//! The calls of a cell and of a board that take memory.

ghost use Rattle.std.specs.Prelude.{◌≡◌, [], ◌∷◌, IfOk, IsTrue};
ghost use Rattle.gq_tag.specs.Tag.{to_server};

use crate::Fault;
use crate::calls::{retry, tell, tell_refused};
use gq_cell::{Board, Cell, CellRefused, ChangeRefused, Letter, Share};
use gq_desk::{Name, Plan, PlanFault, TenantRow};
use gq_grid::Grid;
use gq_memory::copied_bytes;
use gq_tag::{Body, FileId, Message, StoredCopy, Tag};
use std::alloc::Global;
use std::marker::Brand;
use std::sync::ledger::{Blank, Ledger};

const FILE: FileId = FileId {
    tenant: 0,
    volume: 0,
    file: 1,
};

// How often the one server stops and returns, so that the lists of its changes grow.
const TIMES: u64 = 6;

fn grid() -> Result<Grid, Fault>
    ensures { IfOk result (λ grid. grid ≡ record { rows = 1; cols = 1 }) }
{
    match Grid::new(1, 1) {
        Ok(grid) => Ok(grid),
        Err(_) => Err(Fault::Usage),
    }
}

// One server, and a tenant that may have all of its blocks.
fn plan(alloc: Global) -> Result<Plan, Fault>
    ensures { IfOk result (λ plan. plan ≡ record {
      grid = record { rows = 1; cols = 1 };
      blocks = 4;
      rows = record { name = 97 ∷ []; share = 4; sessions = 1; steps = 10; most_blocks = 16; most_volumes = 64 } ∷ [];
    }) }
{
    let Some(name) = Name::new(b"a") else {
        return Err(Fault::Usage);
    };
    let row = TenantRow {
        name,
        share: 4,
        sessions: 1,
        steps: 10,
        most_blocks: 16,
        most_volumes: 64,
    };
    match Plan::check(alloc, grid()?, 4, &[row]) {
        Ok(plan) => Ok(plan),
        Err(PlanFault::Memory(_)) => Err(Fault::Memory),
        Err(_) => Err(Fault::Usage),
    }
}

// A letter to the server about the second file.
fn letter(stamp: u64, body: Body) -> Letter
    ensures { (result.message.server ≡ 0) × (result.message.body ≡ body) }
{
    Letter {
        place: 0,
        stamp,
        index: 0,
        message: Message {
            tenant: 0,
            session: 1,
            op: 1,
            round: 1,
            server: 0,
            file: FILE,
            body,
        },
    }
}

// A letter is served.
fn serve_one<L: Ledger>(
    cell: &mut Cell<L>,
    share: &mut Share<L>,
    letter: &Letter,
    out: &mut Vec<u8>,
) -> Result<(), Fault>
    requires here { letter.now.message.server ≡ cell.old.server }
    requires asks { IsTrue (to_server letter.now.message.body) }
    ensures { cell.new.server ≡ cell.old.server }
{
    let served = retry!(
        out,
        "Cell::serve",
        &(cell.journal(), cell.last(), cell.up(), share.count()),
        cell.serve(share, letter),
        CellRefused::Memory(_)
    );
    tell(out, &served);
    Ok(())
}

// A store and then an ask are served.
fn serve<L: Ledger>(
    alloc: Global,
    cell: &mut Cell<L>,
    share: &mut Share<L>,
    out: &mut Vec<u8>,
) -> Result<(), Fault>
    requires { cell.old.server ≡ 0 }
{
    let copy = StoredCopy {
        tag: Tag::after(0, 1),
        bytes: copied_bytes(alloc, b"content")?,
    };
    serve_one(cell, share, &letter(5, Body::Store(copy)), out)?;
    serve_one(cell, share, &letter(2, Body::Ask), out)
}

// The server stops or returns.
fn set_up_once<L: Ledger>(cell: &mut Cell<L>, out: &mut Vec<u8>) -> Result<(), Fault> {
    let up = !cell.up();
    let last = cell.last();
    if last == u64::MAX {
        return Err(Fault::Usage);
    }
    retry!(
        out,
        "Cell::set_up",
        &(cell.journal(), cell.last(), cell.up()),
        cell.set_up(up, last + 1)
    );
    Ok(())
}

// The same so many times.
fn set_up<L: Ledger>(cell: &mut Cell<L>, out: &mut Vec<u8>) -> Result<(), Fault> {
    for _ in 0..TIMES {
        set_up_once(cell, out)?;
    }
    tell(out, &(cell.journal(), cell.last(), cell.up()));
    Ok(())
}

// The server serves, and stops and returns.
fn use_cell<L: Ledger>(
    alloc: Global,
    cell: &mut Cell<L>,
    share: &mut Share<L>,
    out: &mut Vec<u8>,
) -> Result<(), Fault>
    requires { cell.old.server ≡ 0 }
{
    serve(alloc, cell, share, out)?;
    set_up(cell, out)
}

// The calls of a new cell. False where memory is refused to that one itself.
fn on_a_new_cell<L: Ledger>(
    alloc: Global,
    plan: &Plan,
    out: &mut Vec<u8>,
    blank: Blank,
) -> Result<bool, Fault>
    requires name { blank.name ≡ L.name }
    requires parts { blank.parts ≡ L.parts }
    requires two { L.parts ≡ 2 }
    requires plan { plan.now ≡ record {
      grid = record { rows = 1; cols = 1 };
      blocks = 4;
      rows = record { name = 97 ∷ []; share = 4; sessions = 1; steps = 10; most_blocks = 16; most_volumes = 64 } ∷ [];
    } }
{
    let Ok((mut cell, mut one, two)) = Cell::<L>::new(alloc, plan, 0, blank) else {
        return Ok(false);
    };
    retry!(
        out,
        "Cell::add_files",
        &(cell.journal(), cell.last(), cell.up()),
        cell.add_files(0, 2, 2)
    );
    use_cell(alloc, &mut cell, &mut one, out)?;
    tell(out, &(one.count(), two.count(), cell.close(one, two)));
    Ok(true)
}

// The same, the cell having a ledger of its own.
fn on_a_cell(alloc: Global, plan: &Plan, out: &mut Vec<u8>) -> Result<bool, Fault>
    requires { plan.now ≡ record {
      grid = record { rows = 1; cols = 1 };
      blocks = 4;
      rows = record { name = 97 ∷ []; share = 4; sessions = 1; steps = 10; most_blocks = 16; most_volumes = 64 } ∷ [];
    } }
{
    on_a_new_cell::<Brand>(alloc, plan, out, Blank::new(2))
}

fn on_cells(alloc: Global, plan: &Plan, out: &mut Vec<u8>) -> Result<(), Fault>
    requires { plan.now ≡ record {
      grid = record { rows = 1; cols = 1 };
      blocks = 4;
      rows = record { name = 97 ∷ []; share = 4; sessions = 1; steps = 10; most_blocks = 16; most_volumes = 64 } ∷ [];
    } }
{
    tell(out, plan);
    if on_a_cell(alloc, plan, out)? {
        return Ok(());
    }
    tell_refused(out, "Cell::new");
    tell(out, plan);
    if on_a_cell(alloc, plan, out)? {
        return Ok(());
    }
    Err(Fault::Memory)
}

/// A cell.
pub fn cell(alloc: Global, out: &mut Vec<u8>) -> Result<(), Fault> {
    let plan = plan(alloc)?;
    on_cells(alloc, &plan, out)
}

// The server stops or returns on the board.
fn change(board: &mut Board, seen: u64, out: &mut Vec<u8>) -> Result<(), Fault>
    requires { board.old.grid ≡ record { rows = 1; cols = 1 } }
    ensures { board.new.grid ≡ board.old.grid }
{
    let up = !board.up().has(0);
    let stamp = retry!(
        out,
        "Board::change",
        &(board.entries(), board.up()),
        board.change(0, up, seen),
        ChangeRefused::Memory(_)
    );
    tell(out, &stamp);
    Ok(())
}

/// A board.
pub fn board(alloc: Global, out: &mut Vec<u8>) -> Result<(), Fault> {
    let mut board = Board::new(alloc, &grid()?);
    for seen in 0..TIMES {
        change(&mut board, 7 * seen, out)?;
    }
    // (the next stamp tells the last)
    tell(out, &(board.stamp(0), board.close()));
    Ok(())
}
