//! A node that was never started.

ghost use Rattle.std.specs.Prelude.{◌≡◌, ◌<◌, ◌≤◌, ℕ, IfOk, None, false, length};
ghost use Rattle.gq_desk.specs.Volumes.{account_at, open_fault};
ghost use Rattle.gq_desk.specs.declared.limits.TheConstants.{MOST_VOLUMES};
ghost use Rattle.gq_node.specs.Opening.{Opens};
ghost use Rattle.gq_setup.specs.Setups.{volume_of};
ghost use Rattle.gq_setup.specs.Laws.{here_of};
ghost use Rattle.gq_service.specs.Serving.{IsNewFor, IsOpen, volumes_in, first_of_read};

use crate::this_node::ThisNode;
use gq_desk::OpenRefused;
use gq_memory::OutOfMemory;
use gq_node::Node;
use gq_setup::{Opening, Setup};
use std::alloc::Global;

// The node with one volume more, which no cause refuses.
fn with_volume(node: Node, opening: Opening) -> Result<Node, OutOfMemory>
    requires tenant { opening.tenant < length node.tables.plan.rows }
    requires has_memory { node.ended ≡ false }
    requires sound { open_fault (account_at node.tables.desk opening.tenant) (volume_of opening) ≡ None }
    ensures opened { IfOk result (λ new. Opens node.tables opening.tenant (volume_of opening) new.tables) }
    ensures has_memory { IfOk result (λ new. new.ended ≡ false) }
{
    match node.open(opening.tenant, opening.files, opening.blocks) {
        Ok(node) => Ok(node),
        Err(OpenRefused::Memory(refused)) => Err(refused),
        Err(OpenRefused::Size) => unreachable!(),
        Err(OpenRefused::Volumes) => unreachable!(),
        Err(OpenRefused::Share { .. }) => unreachable!(),
    }
}

// The node, never started, with the volumes of its plan open, and no file lacked.
fn open_node(alloc: Global, this: &ThisNode) -> Result<Node, OutOfMemory>
    ensures node { IfOk result (λ node. IsOpen this.now.plan.setup.plan (here_of this.now.number this.now.plan.setup) (λ t. volumes_in t this.now.plan.setup.openings) node.tables) }
    ensures has_memory { IfOk result (λ node. node.ended ≡ false) }
{
    let setup = this.plan.setup();
    let lost = setup.lost().copy(alloc)?;
    let mut node = Node::new(alloc, setup.plan().copy()?, lost, this.number)?;
    for opening in setup.openings() {
        node = with_volume(node, *opening)?;
    }
    Ok(node)
}

// How many volumes the tenant at that place has by the setup that was read, if one was.
fn volumes_before(read: &Option<Setup>, tenant: u8) -> usize
    ensures count { result ≡ (first_of_read read.now tenant).volumes }
    ensures few { result ≤ MOST_VOLUMES }
{
    let Some(setup) = read else {
        return 0;
    };
    if tenant as usize >= setup.plan().tenants() {
        return 0;
    }
    setup.volumes(tenant)
}

// Of how many losses the setup tells that was read, if one was.
fn losses_before(read: &Option<Setup>) -> u16
    ensures { (t : ℕ) → result ≡ (first_of_read read.now t).losses }
{
    match read {
        Some(setup) => setup.losses(),
        None => 0,
    }
}

// The node, if it is a new one, begun with the setup that was read: its server lacks the files of all volumes, and its sessions begin
// above all that lost nodes wrote.
fn bereft_node(node: Node, this: &ThisNode, before: &Option<Setup>) -> Result<Node, OutOfMemory>
    requires open { IsOpen this.now.plan.setup.plan (here_of this.now.number this.now.plan.setup) (λ t. volumes_in t this.now.plan.setup.openings) node.tables }
    requires has_memory { node.ended ≡ false }
    ensures { IfOk result (λ new. IsNewFor this.now.plan.setup this.now.number (first_of_read before.now) new.tables) }
{
    let mut node = node;
    let tenants = this.plan.setup().plan().tenants();
    let losses = losses_before(before);
    for place in 0..tenants {
        node.lack(place as u8, volumes_before(before, place as u8), losses)?;
    }
    Ok(node)
}

/// The node, never started, with the volumes of its plan open. If it is a new one, it is begun with the plan that was read so, with which its
/// journal begins: its server lacks the files of all volumes of that, and its sessions begin above all that lost nodes wrote.
pub(crate) fn new_node(
    alloc: Global,
    this: &ThisNode,
    before: &Option<Setup>,
) -> Result<Node, OutOfMemory>
    ensures { IfOk result (λ node. IsNewFor this.now.plan.setup this.now.number (first_of_read before.now) node.tables) }
{
    let node = open_node(alloc, this)?;
    bereft_node(node, this, before)
}
