//! Why a node does not start, or ends.

ghost use Rattle.std.specs.Prelude.{◌≡◌};
ghost use Rattle.gq_service.specs.Faults.{as_fault, status_of};

use crate::mismatch::Mismatch;
use gq_keeper::Fault;
use gq_memory::OutOfMemory;
use gq_node_words::NodeRequest;
use gq_setup::SetupFault;
use std::alloc::AllocError;
use std::fmt;
use std::fmt::{Display, Formatter, Write};

// A fault of the plan, of a file or of the streams.
const FAULT: u8 = 1;
// Memory is wanting.
const MEMORY: u8 = 3;
// The journal is damaged.
const DAMAGED: u8 = 4;

/// Why a node does not start, or ends.
#[derive(Drop)]
pub enum NodeFault {
    /// Memory is wanting.
    Memory,
    /// The input is closed, or failed.
    Read,
    /// The output is closed, or failed.
    Write,
    /// The plan's file could not be read.
    PlanRead,
    /// The plan's file tells no setup.
    Plan(SetupFault),
    /// The plan's text may not stand in a journal. No setup has such a text; that is not proved.
    PlanText,
    /// The grid has so many servers, and its plan has no node of the number.
    NoServer(usize),
    /// Another process has the journal.
    InUse,
    /// There is no journal, and none was to be begun.
    NoJournal,
    /// There is a journal, and one was to be begun.
    Journal,
    /// The journal's last plan gave room for chunks, and there is no shelf beside it.
    NoShelf,
    /// There is a shelf with chunks beside the journal, and one was to be begun.
    Shelf,
    /// The shelf could not be read, or its folder could not be made sure of.
    ShelfRead,
    /// The shelf's folder could not be made.
    ShelfWrite,
    /// The journal could not be read.
    JournalRead,
    /// The journal could not be written or synced.
    JournalWrite,
    /// The journal says that it has this form, which a later program writes.
    Form(u32),
    /// The journal is damaged: its first wrong batch begins at this byte, and a right one is behind it.
    Damaged(usize),
    /// The journal is of another node, or of a plan from which this one doesn't go on.
    Another(Mismatch),
    /// A line of the journal says no fact of this node.
    Strange,
}

impl NodeFault {
    /// The status that the process ends with: 3 where memory is wanting, 4 where the journal is damaged, else 1.
    pub fn status(&self) -> u8
        ensures { result ≡ status_of self.now }
    {
        match self {
            NodeFault::Memory | NodeFault::Plan(SetupFault::Memory(_)) => MEMORY,
            NodeFault::Damaged(_) => DAMAGED,
            _ => FAULT,
        }
    }
}

impl From<OutOfMemory> for NodeFault {
    ghost use Rattle.gq_service.specs.declared.fault.NodeFault.TheVariants.{Memory};

    ghost from_gives = { λ refused e. e ≡ Memory };

    fn from(_: OutOfMemory) -> NodeFault {
        NodeFault::Memory
    }
}

impl From<AllocError> for NodeFault {
    ghost use Rattle.gq_service.specs.declared.fault.NodeFault.TheVariants.{Memory};

    ghost from_gives = { λ refused e. e ≡ Memory };

    fn from(_: AllocError) -> NodeFault {
        NodeFault::Memory
    }
}

impl From<Fault> for NodeFault {
    ghost use Rattle.gq_service.specs.Faults.{as_fault};

    ghost from_gives = { λ fault e. e ≡ as_fault fault };

    fn from(fault: Fault) -> NodeFault {
        match fault {
            Fault::Memory(_) => NodeFault::Memory,
            Fault::Read => NodeFault::Read,
            Fault::Write => NodeFault::Write,
            Fault::JournalRead => NodeFault::JournalRead,
            Fault::JournalWrite | Fault::Full => NodeFault::JournalWrite,
        }
    }
}

/// A fault as it is told to whoever asked for the node: with the file that it is of.
#[derive(Drop)]
pub struct Told<'x, 'r> {
    pub fault: &'x NodeFault,
    pub asked: &'x NodeRequest<'r>,
}

impl Display for Told<'_, '_> {
    fn fmt<W: Write>(&self, f: &mut Formatter<W>) -> fmt::Result {
        let (plan, journal, number) = (self.asked.plan, self.asked.journal, self.asked.number);
        match self.fault {
            NodeFault::Memory | NodeFault::Plan(SetupFault::Memory(_)) => {
                write!(f, "out of memory")
            }
            NodeFault::Read => write!(f, "read fault"),
            NodeFault::Write => write!(f, "write fault"),
            NodeFault::PlanRead => write!(f, "{plan}: read fault"),
            NodeFault::Plan(fault) => write!(f, "{plan}: {fault}"),
            NodeFault::PlanText => write!(f, "{plan}: no text for a journal"),
            NodeFault::NoServer(servers) => write!(f, "node {number}: of {servers}"),
            NodeFault::InUse => write!(f, "{journal}: in use"),
            NodeFault::NoJournal => write!(f, "{journal}: no journal"),
            NodeFault::Journal => write!(f, "{journal}: a journal"),
            NodeFault::NoShelf => write!(f, "{journal}.shelf: no shelf"),
            NodeFault::Shelf => write!(f, "{journal}.shelf: a shelf"),
            NodeFault::ShelfRead => write!(f, "{journal}.shelf: read fault"),
            NodeFault::ShelfWrite => write!(f, "{journal}.shelf: write fault"),
            NodeFault::JournalRead => write!(f, "{journal}: read fault"),
            NodeFault::JournalWrite => write!(f, "{journal}: write fault"),
            NodeFault::Form(form) => {
                write!(
                    f,
                    "{journal}: form {form}, of a later program: this one reads form 1"
                )
            }
            NodeFault::Damaged(at) => write!(f, "{journal}: damaged at byte {at}"),
            NodeFault::Another(Mismatch::NoPlan) => write!(f, "{journal}: no journal of a node"),
            NodeFault::Another(Mismatch::Node(other)) => write!(f, "{journal}: of node {other}"),
            NodeFault::Another(Mismatch::Plan(what)) => {
                write!(
                    f,
                    "{plan}: does not go on from the plan in {journal}: {what}"
                )
            }
            NodeFault::Strange => write!(f, "{journal}: a line says no fact of this node"),
        }
    }
}
