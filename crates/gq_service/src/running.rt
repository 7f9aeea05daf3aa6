//! A node as it is asked for.

ghost use Rattle.std.specs.Prelude.{◌++◌, ℕ, List, OnOk};
ghost use Rattle.gq_lines.specs.Written.{first_text};
ghost use Rattle.gq_chunks.specs.Having.{chunks_of};
ghost use Rattle.gq_service.specs.Kinds.{kind};
ghost use Rattle.gq_service.specs.Promises.{IsDurableByPlan, IsDurableByRoom, ServesByPlan, ServesByRoom};
ghost use Rattle.gq_service.specs.Serving.{IsDurable, ServesSomehow};

use crate::both::ByVerb;
use crate::console::Console;
use crate::fault::NodeFault;
use crate::finding::{find_journal, read_plan_file};
use crate::locking::locked;
use crate::registers::RegistersAlone;
use crate::served::{Maker, Served};
use crate::serving::serve_node;
use crate::this_node::ThisNode;
use gq_chunks::ChunkMachine;
use gq_keeper::Output;
use gq_machine::NodeMachine;
use gq_node_words::NodeRequest;
use gq_pair::Pair;
use gq_shelf::Shelf;
use std::alloc::Global;
use std::fs::File;
use std::io::Read;
use std::rt::Files;

// Runs the node on its journal, by the machine that the maker makes.
fn run_with<
    M: Served + Drop,
    K: Maker<M> + Drop,
    R: Files<File = File> + Drop,
    I: Read,
    O: Output,
    C: Console,
>(
    rt: &R,
    alloc: Global,
    asked: &NodeRequest<'_>,
    node: &ThisNode,
    console: &C,
    maker: K,
    input: &mut I,
    out: &mut O,
) -> Result<(), NodeFault>
    requires durable { (synced shown : List ℕ) → IsDurable (kind M.steps M.recalls M.readable M.blank M.rests M.is_new) node.now.plan.setup node.now.number (I.remaining input.old) (O.shown out.old ++ first_text) synced shown → O.allows synced shown }
    ensures served { OnOk result (ServesSomehow (kind M.steps M.recalls M.readable M.blank M.rests M.is_new) node.now.plan.setup node.now.number asked.now.is_new (I.remaining input.old) (O.shown out.old ++ first_text) (O.shown out.new)) }
{
    let mut disk = find_journal(alloc, rt, asked.journal, asked.is_new)?;
    serve_node(
        alloc,
        node,
        asked.is_new,
        asked.is_anew,
        console,
        maker,
        &mut disk,
        input,
        out,
    )
}

// Runs the node by the machine that its plan asks for.
fn run_kind<
    S: Shelf + Drop,
    K: Maker<Pair<NodeMachine, ChunkMachine<S>, ByVerb>> + Drop,
    R: Files<File = File> + Drop,
    I: Read,
    O: Output,
    C: Console,
>(
    rt: &R,
    alloc: Global,
    asked: &NodeRequest<'_>,
    node: &ThisNode,
    console: &C,
    chunks: K,
    input: &mut I,
    out: &mut O,
) -> Result<(), NodeFault>
    requires durable { (synced shown : List ℕ) → IsDurableByRoom (chunks_of S.noted) node.now.plan.setup node.now.number (I.remaining input.old) (O.shown out.old ++ first_text) synced shown → O.allows synced shown }
    ensures served { OnOk result (ServesByRoom (chunks_of S.noted) node.now.plan.setup node.now.number asked.now.is_new (I.remaining input.old) (O.shown out.old ++ first_text) (O.shown out.new)) }
{
    if node.plan.setup().has_chunks() {
        run_with(rt, alloc, asked, node, console, chunks, input, out)
    } else {
        run_with(rt, alloc, asked, node, console, RegistersAlone, input, out)
    }
}

/// Runs the node that is asked for to the end of the input, on the files of its plan and its journal. `durable` says all that is
/// known of what is shown, at each write: it is what the node of this number told, from some journal and by some plan, by steps
/// that took the lines of a beginning of the input and whose facts are synced, so that a start reads the node which they left. At the end of the input all its lines were taken so
/// (`served`). A node of a plan with room for chunks is made by `chunks`. That the journal's file holds what [`FileDisk`](gq_keeper::FileDisk) notes of it is argued, and not proved.
///
/// Faults are looked for in this order: the standard streams, the plan, the number, the lock, the journal, and where the plan gives room for
/// chunks the shelf. After one of the first four
/// nothing was written to a file, but that the lock's file, which lies beside the journal, may have been made; a journal that is
/// there already where one is to be begun, is damaged or is of another node or plan stays as it was.
pub fn run_node<
    S: Shelf + Drop,
    K: Maker<Pair<NodeMachine, ChunkMachine<S>, ByVerb>> + Drop,
    R: Files<File = File> + Drop,
    I: Read,
    O: Output,
    C: Console,
>(
    rt: &R,
    alloc: Global,
    asked: &NodeRequest<'_>,
    console: &C,
    chunks: K,
    input: &mut I,
    out: &mut O,
) -> Result<(), NodeFault>
    requires durable { (synced shown : List ℕ) → IsDurableByPlan (chunks_of S.noted) asked.now.number (I.remaining input.old) (O.shown out.old ++ first_text) synced shown → O.allows synced shown }
    ensures served { OnOk result (ServesByPlan (chunks_of S.noted) asked.now.number asked.now.is_new (I.remaining input.old) (O.shown out.old ++ first_text) (O.shown out.new)) }
{
    console.check()?;
    let setup = read_plan_file(alloc, rt, asked.plan)?;
    let node = ThisNode::new(alloc, asked.number, setup)?;
    let lock = locked(alloc, rt, asked.journal, asked.is_new)?;
    let ended = run_kind(rt, alloc, asked, &node, console, chunks, input, out);
    let _ = lock.unlock();
    ended
}
