//! A node that keeps registers and chunks.

ghost use Rattle.std.specs.Prelude.{◌+◌, ◌≤◌, IfOk, IfSome};
ghost use Rattle.gq_shelf.specs.Extents.{place_of};
ghost use Rattle.gq_depot.specs.Segments.{NoneLies};
ghost use Rattle.gq_chunks.specs.Machines.{IsNewFor};
ghost use Rattle.gq_chunks.specs.Having.{chunks_of};

use crate::fault::NodeFault;
use crate::registers::new_registers;
use crate::served::{Maker, Served};
use crate::shelving::{find_shelf, had_chunks};
use crate::this_node::ThisNode;
use gq_chunks::{ChunkMachine, Damage, Sweep, is_chunk_fact, longest_of, taker_of};
use gq_machine::NodeMachine;
use gq_memory::OutOfMemory;
use gq_pair::{Pair, Parts, Taker};
use gq_setup::Setup;
use gq_shelf::{FileShelf, Shelf, ShelfFault};
use std::alloc::Global;
use std::fs::File;
use std::marker::PhantomData;
use std::rt::Files;

// So many quarters of a second are a day.
const QUARTERS_OF_A_DAY: u64 = 345_600;

/// Lines and facts of registers and of chunks are told apart by their verbs.
#[derive(Drop)]
pub struct ByVerb;

impl<S: Shelf + Drop> Parts<NodeMachine, ChunkMachine<S>> for ByVerb {
    ghost use Rattle.gq_chunks.specs.Takers.{line_taker, tells_chunk};
    ghost use Rattle.gq_chunks.specs.Having.{chunks_of};
    ghost use Rattle.gq_service.specs.Verbs.{first_facts, second_facts, first_reads, second_reads};

    ghost takes = { line_taker };

    ghost is_second = { tells_chunk };

    fn taker_of(line: &[u8]) -> Taker {
        taker_of(line)
    }

    fn is_second_fact(line: &[u8]) -> bool {
        is_chunk_fact(line)
    }

    ghost first_facts = { first_facts };

    ghost second_facts = { λ old line facts told new step. second_facts (chunks_of S.noted old) line facts told (chunks_of S.noted new) step };

    ghost first_reads = { first_reads };

    ghost second_reads = { λ m line reads. second_reads (chunks_of S.noted m) line reads };
}

/// Registers, and chunks over a shelf.
pub type Both<S> = Pair<NodeMachine, ChunkMachine<S>, ByVerb>;

impl<S: Shelf + Drop> Served for Pair<NodeMachine, ChunkMachine<S>, ByVerb> {
    ghost use Rattle.gq_chunks.specs.Having.{chunks_of};
    ghost use Rattle.gq_service.specs.Both.{BothAreNewFor};

    ghost is_new = { BothAreNewFor (chunks_of S.noted) };

    fn facts(&self) -> u64 {
        self.first.facts.saturating_add(self.second.facts())
    }

    fn registers(&self) -> &NodeMachine {
        &self.first
    }

    fn sweep(&self, sweep: &mut Sweep) -> Result<Option<u32>, ShelfFault>
        ensures dead { IfOk result (λ removed. IfSome removed (λ segment. NoneLies segment self.now.second.depots.depots.items)) }
        ensures below { IfOk result (λ removed. IfSome removed (λ segment. place_of (segment + 1) 0 ≤ S.end self.now.second.depots.shelf)) }
    {
        self.second.sweep(sweep)
    }

    fn chunks_lacked(&self) -> (usize, u64) {
        (self.second.lacking(), self.second.contents_came())
    }

    fn damage(&self) -> Damage {
        self.second.damage()
    }
}

// How many ticks come in so many days. A carrier gives one each quarter of a second, and later where lines are long: so many seconds as the longest has MiB.
fn ticks_of(days: u32, longest: usize) -> u64 {
    let quarters = (longest as u64) / (1 << 18) + 1;
    u64::from(days) * QUARTERS_OF_A_DAY / quarters
}

// The chunks of the node, never started, over a shelf, of which all contents are read within so many days. `before` was read of the plan with which its journal begins.
fn new_chunks<S: Shelf + Drop>(
    alloc: Global,
    node: &ThisNode,
    before: &Option<Setup>,
    shelf: S,
    days: u32,
) -> Result<ChunkMachine<S>, OutOfMemory>
    ensures { IfOk result (λ m. IsNewFor node.now.plan.setup before.now node.now.number (chunks_of S.noted m)) }
{
    let setup = node.plan.setup();
    let ticks = ticks_of(days, longest_of(setup));
    ChunkMachine::new(alloc, setup, before, node.number, shelf, ticks)
}

/// Makes the machine of a node that keeps chunks as well, on the shelf beside the journal of this path.
#[derive(Drop)]
pub struct WithChunks<'x, R: Files<File = File> + Drop> {
    rt: R,
    path: &'x str,
    days: u32,
}

impl<'x, R: Files<File = File> + Drop> WithChunks<'x, R> {
    /// On the shelf beside the journal of this path, of which all contents are read within so many days; 0: none is. Nothing is opened yet.
    pub fn new(rt: R, path: &'x str, days: u32) -> WithChunks<'x, R> {
        WithChunks { rt, path, days }
    }
}

impl<R: Files<File = File> + Drop> Maker<Pair<NodeMachine, ChunkMachine<FileShelf<R>>, ByVerb>>
    for WithChunks<'_, R> {
    fn make(
        self,
        alloc: Global,
        node: &ThisNode,
        journal: &[u8],
        before: &Option<Setup>,
    ) -> Result<Pair<NodeMachine, ChunkMachine<FileShelf<R>>, ByVerb>, NodeFault> {
        let WithChunks { rt, path, days } = self;
        let registers = new_registers(alloc, node, before)?;
        let had_chunks = had_chunks(alloc, journal)?;
        let shelf = find_shelf(alloc, rt, path, had_chunks)?;
        let chunks = new_chunks(alloc, node, before, shelf, days)?;
        Ok(Pair {
            first: registers,
            second: chunks,
            parts: PhantomData,
        })
    }
}
