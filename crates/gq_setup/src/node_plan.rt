//! The plan with which a node starts, as its journal has it.

ghost use Rattle.std.specs.Prelude.{◌≡◌, ◌++◌, ℕ, List, true, Ok, None, IsErr, MatchOption, IfOk, IfSome, OnOk};
ghost use Rattle.gq_grid.specs.Grid.{is_side};
ghost use Rattle.gq_journal.specs.Batches.{Line, lines_text, whole_lines};
ghost use Rattle.gq_setup.specs.GoingOn.{goes_on_from_read};
ghost use Rattle.gq_setup.specs.Texts.{head_text, node_text, behind_first, setup_of_node_text, no_first, first_of_lines, OpensFor};

use crate::openings::SetupFault;
use crate::setup::{Setup, read_setup};
use gq_keeper::{Plan, is_plan_text};
use gq_memory::{GrowCopies, OutOfMemory};
use gq_text::{Piece, put_words};
use std::alloc::Global;

/// The setup with which a node starts, and its text in the node's journal.
#[derive(Drop)]
pub struct NodePlan {
    alloc: Global,
    text: Vec<u8>,
    setup: Setup,
}

// Appends the line `node N of R by C`.
fn put_head(out: &mut Vec<u8>, number: u16, setup: &Setup) -> Result<(), OutOfMemory>
    ensures text { OnOk result (out.new.items ≡ out.old.items ++ head_text number setup.now) }
    ensures rows { OnOk result (is_side setup.now.plan.grid.rows ≡ true) }
    ensures cols { OnOk result (is_side setup.now.plan.grid.cols ≡ true) }
{
    let grid = setup.plan().grid();
    out.grow_by(b"node")?;
    put_words(
        out,
        &[
            Piece::Number(u64::from(number)),
            Piece::Text(b"of"),
            Piece::Number(grid.rows() as u64),
            Piece::Text(b"by"),
            Piece::Number(grid.cols() as u64),
        ],
    )
}

// Appends the text of a node's plan.
fn put_node_text(
    alloc: Global,
    out: &mut Vec<u8>,
    number: u16,
    setup: &Setup,
) -> Result<(), OutOfMemory>
    ensures text { OnOk result (out.new.items ≡ out.old.items ++ node_text number setup.now) }
    ensures back { OnOk result (setup_of_node_text (node_text number setup.now) ≡ Ok setup.now) }
{
    put_head(out, number, setup)?;
    setup.put_text(alloc, out)
}

// What is behind the first line.
fn behind_first(text: &[u8]) -> &[u8]
    ensures { result.now ≡ behind_first text.now }
{
    for (i, c) in text.iter().enumerate() {
        if *c == b'\n' {
            return &text[i + 1..];
        }
    }
    &[]
}

impl NodePlan {
    ghost use Rattle.gq_keeper.specs.Plans.{IsPlan as IsPlanText};

    /// The plan of the node of this number. None where its text could not stand in a journal; that no setup has such a text is not
    /// proved.
    pub fn new(alloc: Global, number: u16, setup: Setup) -> Result<Option<NodePlan>, OutOfMemory>
        ensures text { IfOk result (λ made. IfSome made (λ plan. plan.text.items ≡ node_text number setup)) }
        ensures setup { IfOk result (λ made. IfSome made (λ plan. plan.setup ≡ setup)) }
        ensures back { IfOk result (λ made. IfSome made (λ plan. setup_of_node_text plan.text.items ≡ Ok setup)) }
        ensures is { IfOk result (λ made. IfSome made (λ plan. IsPlanText plan.text.items)) }
        ensures volumes { IfOk result (λ made. IfSome made (λ plan. OpensFor (whole_lines plan.text.items) setup)) }
        ensures none { IfOk result (λ made. made ≡ None → IsPlanText (node_text number setup) → ⊥) }
    {
        let mut text = Vec::new(alloc);
        put_node_text(alloc, &mut text, number, &setup)?;
        if !is_plan_text(text.as_slice()) {
            return Ok(None);
        }
        Ok(Some(NodePlan { alloc, text, setup }))
    }

    /// The setup.
    pub fn setup(&self) -> &Setup
        ensures { result.now ≡ self.now.setup }
    {
        &self.setup
    }
}

/// The setup that the text of a plan in a journal tells, if it tells one. With it comes what a new node takes from that plan.
pub fn read_node_plan(alloc: Global, text: &[u8]) -> Result<Option<Setup>, OutOfMemory>
    ensures setup { IfOk result (λ read. MatchOption read (IsErr (setup_of_node_text text.now)) (λ setup. setup_of_node_text text.now ≡ Ok setup)) }
    ensures volumes { IfOk result (λ read. MatchOption read
        ((lines : List Line) (t : ℕ) → text.now ≡ lines_text lines → first_of_lines lines t ≡ no_first)
        (λ setup. (lines : List Line) → text.now ≡ lines_text lines → OpensFor lines setup)) }
{
    match read_setup(alloc, behind_first(text)) {
        Ok(setup) => Ok(Some(setup)),
        Err(SetupFault::Memory(refused)) => Err(refused),
        Err(_) => Ok(None),
    }
}

impl Plan for NodePlan {
    ghost text = { λ p. p.text.items };

    ghost goes_on = { λ p last. goes_on_from_read (setup_of_node_text last) p.setup };

    fn text(&self) -> &[u8] {
        self.text.as_slice()
    }

    fn goes_on(&self, last: &[u8]) -> Result<bool, OutOfMemory> {
        match read_node_plan(self.alloc, last)? {
            Some(old) => Ok(self.setup.goes_on_from(&old)),
            None => Ok(false),
        }
    }
}
