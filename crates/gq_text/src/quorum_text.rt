//! The text of a quorum.

ghost use Rattle.std.specs.Prelude.{◌≡◌, ◌++◌, None, Some, OnOk, OnErr, IfSome};
ghost use Rattle.gq_text.specs.QuorumText.{quorum_text};
ghost use Rattle.gq_lines.specs.Written.{Extends};

use crate::pieces::{Piece, put_words};
use gq_grid::{Choice, Grid};
use gq_memory::OutOfMemory;
use std::alloc::Global;
use std::marker::Model;

// The words of the quorum that was told last. A quorum is told again and again until a server changes, and it has the
// longest words: they are put together once.
#[derive(Drop)]
pub struct QuorumText {
    grid: Grid,
    choice: Option<Choice>,
    text: Vec<u8>,
}

impl Model for QuorumText {
    ghost use Rattle.gq_text.specs.QuorumText.{Held, Holds};

    ghost Value = { Held };

    ghost view = { λ q. record { grid = q.grid; choice = q.choice } };

    ghost invariant = { λ q. Holds q.grid q.choice q.text.items };
}

impl QuorumText {
    // No quorum of the grid was told.
    pub fn new(alloc: Global, grid: Grid) -> QuorumText
        ensures { result ≡ record { grid = grid; choice = None } }
    {
        QuorumText {
            grid,
            choice: None,
            text: Vec::new(alloc),
        }
    }

    // Holds the words of the choice from now on.
    pub fn hold(&mut self, choice: Choice) -> Result<(), OutOfMemory>
        ensures grid { self.new.grid ≡ self.old.grid }
        ensures ok { OnOk result (self.new.choice ≡ Some choice) }
    {
        if self.choice == Some(choice) {
            return Ok(());
        }
        self.choice = None;
        self.text.clear();
        put_quorum(&mut self.text, &self.grid, choice)?;
        self.choice = Some(choice);
        Ok(())
    }

    // The words of the choice that is held, each after one space, and a newline.
    pub fn text(&self) -> &[u8]
        ensures { IfSome self.now.choice (λ choice. result.now ≡ quorum_text self.now.grid choice) }
    {
        self.text.as_slice()
    }
}

// Appends the words of a quorum, and a newline.
pub fn put_quorum(out: &mut Vec<u8>, grid: &Grid, choice: Choice) -> Result<(), OutOfMemory>
    ensures ok { OnOk result (out.new.items ≡ out.old.items ++ quorum_text grid.now choice) }
    ensures err { OnErr result (Extends out.old.items out.new.items) }
{
    put_words(
        out,
        &[
            Piece::Text(b"quorum"),
            Piece::Number(choice.row as u64),
            Piece::Number(choice.col as u64),
            Piece::Text(b"servers"),
            Piece::Servers(grid, choice.servers),
        ],
    )
}
