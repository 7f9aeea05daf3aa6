//! A cell and a board, step by step.
ghost use Rattle.std.specs.Prelude.{◌≡◌, [], ◌∷◌};

use gq_cell::{Board, Cell, CellEntry, CellRefused, ChangeRefused, Letter, Served, Share};
use gq_desk::{Name, Plan, TenantRow};
use gq_grid::Grid;
use gq_tag::{Body, FileId, Message, StoredCopy};
use std::alloc::Global;
use std::marker::Brand;
use std::process::Abort;
use std::sync::ledger::{Blank, Ledger};

// A plan of one server of four blocks, and one tenant that may have all of them.
fn plan_of_ann(rt: &impl Abort, alloc: Global) -> Plan
    ensures { result ≡ record {
      grid = record { rows = 1; cols = 1 };
      blocks = 4;
      rows = record { name = 97 ∷ []; share = 4; sessions = 1; steps = 10; most_blocks = 16; most_volumes = 64 } ∷ [];
    } }
{
    let grid = Grid::new(1, 1).expect(rt, "a grid");
    let name = Name::new(b"a").expect(rt, "a name");
    let row = TenantRow {
        name,
        share: 4,
        sessions: 1,
        steps: 10,
        most_blocks: 16,
        most_volumes: 64,
    };
    Plan::check(alloc, grid, 4, &[row]).expect(rt, "a plan")
}

// A letter to server 0 about the second file.
fn letter(stamp: u64, body: Body) -> Letter
    ensures { (result.message.server ≡ 0) × (result.message.body ≡ body) }
{
    Letter {
        place: 0,
        stamp,
        index: 0,
        message: Message {
            tenant: 0,
            session: 1,
            op: 1,
            round: 1,
            server: 0,
            file: FileId {
                tenant: 0,
                volume: 0,
                file: 1,
            },
            body,
        },
    }
}

fn ask(stamp: u64) -> Letter
    ensures { (result.message.server ≡ 0) × (result.message.body ≡ Body.Ask) }
{
    letter(stamp, Body::Ask)
}

// An ask at this stamp is replied to with the first copy, at that stamp.
fn replies<L: Ledger>(
    rt: &impl Abort,
    cell: &mut Cell<L>,
    share: &mut Share<L>,
    stamp: u64,
    told: u64,
)
    requires { cell.old.server ≡ 0 }
    ensures { cell.new.server ≡ 0 }
{
    match cell.serve(share, &ask(stamp)) {
        Ok(Served::Reply(reply)) => {
            assert!(rt; reply.place == 1 && reply.stamp == told);
            assert!(rt; reply.message.body == Body::Copy(StoredCopy::first()));
        }
        _ => panic!(rt; "no reply"),
    }
}

fn stops<L: Ledger>(rt: &impl Abort, cell: &mut Cell<L>, share: &mut Share<L>)
    requires { cell.old.server ≡ 0 }
{
    let late = ask(u64::MAX);
    assert!(rt; matches!(cell.serve(share, &late), Err(CellRefused::Stamps)));
    assert!(rt; cell.up() && cell.last() < 10);
    assert!(rt; cell.set_up(false, 10).is_ok());
    assert!(rt; matches!(cell.serve(share, &late), Ok(Served::Down)));
}

fn cell_steps<L: Ledger>(rt: &impl Abort, alloc: Global, blank: Blank)
    requires name { blank.name ≡ L.name }
    requires parts { blank.parts ≡ L.parts }
    requires two { L.parts ≡ 2 }
{
    let plan = plan_of_ann(rt, alloc);
    let (mut cell, mut one, two) = Cell::<L>::new(alloc, &plan, 0, blank).expect(rt, "memory");
    cell.add_files(0, 2, 2).expect(rt, "memory");
    replies(rt, &mut cell, &mut one, 7, 8);
    replies(rt, &mut cell, &mut one, 3, 9);
    assert!(rt; cell.journal().len() == 2);
    stops(rt, &mut cell, &mut one);
    assert!(rt; one.count() == 2 && two.count() == 0);
    let journal = cell.close(one, two);
    assert!(rt; journal.len() == 3 && journal[2] == CellEntry::Stop { stamp: 10 });
}

#[test]
fn records_what_a_cell_does(rt: HostRuntime) {
    cell_steps::<Brand>(&rt, rt.alloc(), Blank::new(2));
}

// What a board of one server does, step by step.
fn board_steps(rt: &impl Abort, board: &mut Board)
    requires { board.old.grid ≡ record { rows = 1; cols = 1 } }
{
    assert!(rt; board.stamp(41) == Some(42));
    assert!(rt; board.stamp(0) == Some(43));
    assert!(rt; matches!(board.change(0, true, 0), Err(ChangeRefused::Same)));
    assert!(rt; matches!(board.change(0, false, 50), Ok(51)));
    assert!(rt; !board.up().has(0));
    assert!(rt; board.entries().len() == 1);
    assert!(rt; board.stamp(u64::MAX).is_none());
    assert!(rt; matches!(board.change(0, true, u64::MAX), Err(ChangeRefused::Stamps)));
    assert!(rt; board.entries().len() == 1 && !board.up().has(0));
}

#[test]
fn stamps_what_a_board_does(rt: HostRuntime) {
    let grid = Grid::new(1, 1).expect(&rt, "a grid");
    let mut board = Board::new(rt.alloc(), &grid);
    board_steps(&rt, &mut board);
    assert!(rt; board.close().len() == 1);
}
