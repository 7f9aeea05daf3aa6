//! A node's tables: their form, what they are at first, and what a tenant has in them.

ghost use Rattle.std.specs.Prelude.{◌≡◌, ◌<◌, ◌≤◌, ◌*◌, ◌≢◌, [], length, map, replicate, true, IfOk, IfErr};
ghost use Rattle.gq_tag.specs.declared.TheConstants.{MOST_FILES};
ghost use Rattle.gq_desk.specs.CheckedPlan.{row_at};
ghost use Rattle.gq_desk.specs.Volumes.{IsRefusedFor, open_fault, account_at};
ghost use Rattle.gq_model.specs.Trace.{files_of};
ghost use Rattle.gq_node.specs.Lanes.{lane_of};
ghost use Rattle.gq_node.specs.Local.{holding, tells_holding};
ghost use Rattle.gq_node.specs.Bounds.{IsBounded, content_bytes};
ghost use Rattle.gq_node.specs.Shape.{FewSessions, IsShaped, IsFirst};
ghost use Rattle.gq_node.specs.Sites.{Here, site_of, has_session, session_state_place, session_at};
ghost use Rattle.gq_replace.specs.Plans.{place_of};
ghost use Rattle.gq_node.specs.declared.lost.TheConstants.{MOST_NUMBERS};
ghost use Rattle.gq_node.specs.Tables.{first_session_state, Tables, Acts, IsOfPlan, session_states_at};
ghost use Rattle.gq_node.specs.Opening.{Opens};

use crate::homes::{generation, home_place, session_state_place};
use crate::lacks::Lacks;
use crate::lanes::lanes_for;
use crate::lost::{Lost, MOST_NUMBERS};
use crate::output::{Answer, Holding, NodeNumbers, Output};
use crate::session_states::SessionStates;
use gq_desk::{Desk, MOST_SESSIONS, OpenRefused, Plan, VolumeRows};
use gq_grid::{MOST_SERVERS, ServerSet};
use gq_memory::{GrowVec, OutOfMemory, filled, room_for, slice_copied};
use gq_store::ServerStore;
use gq_tag::BLOCK_BYTES;
use std::alloc::Global;
use std::marker::Model;

/// A node's tables. No call undoes anything where memory is wanting: the tables then have their shape, and stand for nothing.
#[derive(Drop)]
pub(crate) struct Core {
    pub(crate) alloc: Global,
    pub(crate) plan: Plan,
    pub(crate) lost: Lost,
    pub(crate) node: u16,
    pub(crate) desk: Desk,
    pub(crate) store: ServerStore,
    // the files of each tenant that the server lacks
    pub(crate) lacks: Vec<Lacks>,
    // the places whose nodes have told, since the start, that their plan has this one
    pub(crate) joined: ServerSet,
    // whom each tenant's files were asked of last: a place
    pub(crate) peers: Vec<u8>,
    // the sessions of each tenant
    pub(crate) session_states: Vec<SessionStates>,
}

impl Model for Core {
    ghost use Rattle.gq_node.specs.Tables.{Tables};
    ghost use Rattle.gq_node.specs.Shape.{IsShaped};

    ghost Value = { Tables };

    ghost view = { λ w. record { plan = w.plan; here = record { node = w.node; lost = w.lost }; desk = w.desk; store = w.store; given = w.lacks.items; joined = w.joined; peers = w.peers.items; session_states = w.session_states.items } };

    ghost invariant = { λ w. IsShaped (record { plan = w.plan; here = record { node = w.node; lost = w.lost }; desk = w.desk; store = w.store; given = w.lacks.items; joined = w.joined; peers = w.peers.items; session_states = w.session_states.items }) };
}

/// The place of the grid at which the node of that number stands.
pub fn place_of(node: u16) -> u8
    ensures { result ≡ place_of node }
{
    (node as usize % MOST_SERVERS) as u8
}

// The sessions of each tenant of the plan, at the node of the server.
fn new_session_states(
    alloc: Global,
    plan: &Plan,
    server: u8,
) -> Result<Vec<SessionStates>, OutOfMemory>
    ensures session_states { IfOk result (λ session_states. session_states.items
        ≡ map (λ row. replicate row.sessions (first_session_state plan.now.grid server)) plan.now.rows) }
    ensures few { IfOk result (λ session_states. FewSessions plan.now) }
{
    let mut session_states = Vec::new(alloc);
    for row in plan.rows() {
        session_states.grow(SessionStates::new(alloc, plan.grid(), server, row.sessions)?)?;
    }
    Ok(session_states)
}

// None of so many tenants has a file that the server lacks.
fn no_lacks(alloc: Global, tenants: usize) -> Result<Vec<Lacks>, OutOfMemory>
    ensures { IfOk result (λ lacks. lacks.items ≡ replicate tenants []) }
{
    let mut lacks = room_for(alloc, tenants)?;
    for _ in 0..tenants {
        lacks.push_reserved(Lacks::nothing(alloc));
    }
    Ok(lacks)
}

impl Core {
    // The tables of the plan's node of that number, where these were lost: no volume is open, and no line came.
    pub(crate) fn new(alloc: Global, plan: Plan, lost: Lost, node: u16) -> Result<Core, OutOfMemory>
        requires { place_of node < plan.grid.rows * plan.grid.cols }
        ensures { IfOk result (λ w. IsFirst plan (record { node = node; lost = lost }) w) }
    {
        let server = place_of(node);
        let _servers = plan.grid().servers();
        lost.few();
        let desk = Desk::new(alloc, &plan)?;
        let store = ServerStore::new(alloc, &plan)?;
        let tenants = plan.tenants();
        let lacks = no_lacks(alloc, tenants)?;
        let peers = filled(alloc, server, tenants)?;
        let session_states = new_session_states(alloc, &plan, server)?;
        Ok(Core {
            alloc,
            plan,
            lost,
            node,
            desk,
            store,
            lacks,
            joined: ServerSet::empty(),
            peers,
            session_states,
        })
    }

    // Opens the tenant's next volume.
    pub(crate) fn open(self, tenant: u8, files: u32, blocks: u32) -> Result<Core, OpenRefused>
        requires { tenant < length self.plan.rows }
        ensures opened { IfOk result (λ w. Opens self tenant (record { files = files; blocks = blocks }) w) }
        ensures refused { IfErr result (IsRefusedFor (open_fault (account_at self.desk tenant) (record { files = files; blocks = blocks }))) }
    {
        let Core {
            alloc,
            plan,
            lost,
            node,
            mut desk,
            mut store,
            lacks,
            joined,
            peers,
            session_states,
        } = self;
        let _number = desk.open_volume(tenant, files, blocks)?;
        match store.add_files(tenant, files, blocks) {
            Ok(()) => Ok(Core {
                alloc,
                plan,
                lost,
                node,
                desk,
                store,
                lacks,
                joined,
                peers,
                session_states,
            }),
            Err(refused) => Err(OpenRefused::Memory(refused)),
        }
    }

    // The plan.
    pub(crate) fn plan(&self) -> &Plan
        ensures { result.now ≡ self.now.plan }
    {
        &self.plan
    }

    // No more is held than the plan has room for.
    pub(crate) fn bounded(&self)
        ensures { IsBounded self.now }
    {
        for tenant in 0..self.plan.tenants() {
            self.lacks[tenant].room();
        }
    }

    // How many bytes the contents take at the server, in whole blocks.
    pub(crate) fn content_bytes(&self) -> usize
        ensures { result ≡ content_bytes self.now }
    {
        BLOCK_BYTES * (self.plan.blocks() as usize).saturating_sub(self.store.free())
    }

    // The number of the node.
    pub(crate) fn node(&self) -> u16
        ensures { result ≡ self.now.here.node }
    {
        self.node
    }

    // The nodes that were lost.
    pub(crate) fn lost(&self) -> &Lost
        ensures { result.now ≡ self.now.here.lost }
    {
        &self.lost
    }

    // The place of the node's server.
    pub(crate) fn server(&self) -> u8
        ensures { result ≡ place_of self.now.here.node }
    {
        place_of(self.node)
    }

    // Whether there is the session.
    pub(crate) fn has(&self, tenant: u8, session: u32) -> bool
        requires { tenant < length self.now.plan.rows }
        ensures has { result ≡ has_session (site_of self.now.plan self.now.here tenant) session }
        ensures first { result ≡ true → 1 ≤ session }
        ensures last { result ≡ true → session_state_place session < length (session_states_at self.now.session_states tenant) }
        ensures within { tenant < length self.now.session_states }
        ensures few { result ≡ true → session ≤ MOST_NUMBERS }
    {
        let sessions = self.plan.row(tenant).sessions;
        if session < 1 || MOST_NUMBERS < session {
            return false;
        }
        let place = session_state_place(session);
        if place >= sessions as usize {
            return false;
        }
        let lost = self.lost.times(home_place(&self.plan, tenant, place));
        generation(session) == u32::from(lost)
    }

    // The number of the session at that place of the tenant's.
    pub(crate) fn session_at(&self, tenant: u8, place: usize) -> u8
        requires tenant { tenant < length self.now.plan.rows }
        requires place { place < (row_at self.now.plan tenant).sessions }
        ensures { result ≡ session_at self.now.plan self.now.here tenant place }
    {
        let lost = self.lost.times(home_place(&self.plan, tenant, place));
        lost * MOST_SESSIONS as u8 + place as u8 + 1
    }

    // How many files the volume has.
    pub(crate) fn files(&self, tenant: u8, volume: u32) -> u32
        requires tenant { tenant < length self.now.plan.rows }
        requires volume { volume < length (account_at self.now.desk tenant).volumes }
        ensures value { result ≡ files_of (account_at self.now.desk tenant).volumes volume }
        ensures some { 0 < result }
        ensures bound { result ≤ MOST_FILES }
    {
        self.desk.volumes(tenant)[volume as usize].files
    }

    // The lane of the volume's files.
    pub(crate) fn lane(&self, tenant: u8, volume: u32) -> u32
        requires tenant { tenant < length self.now.plan.rows }
        requires volume { volume < length (account_at self.now.desk tenant).volumes }
        ensures { result ≡ lane_of (account_at self.now.desk tenant).volumes volume }
    {
        let row = self.desk.volumes(tenant)[volume as usize];
        volume % lanes_for(row.blocks)
    }

    // What the tenant has.
    fn holding(&self, tenant: u8) -> Result<Holding, OutOfMemory>
        requires { tenant < length self.now.plan.rows }
        ensures { IfOk result (λ has. has ≡ holding (site_of self.now.plan self.now.here tenant) (account_at self.now.desk tenant).volumes) }
    {
        let row = self.plan.row(tenant);
        let items = slice_copied(self.alloc, self.desk.volumes(tenant))?;
        Ok(Holding {
            servers: self.plan.grid().servers() as u8,
            home: home_place(&self.plan, tenant, 0) as u8,
            sessions: row.sessions,
            share: row.share,
            most_blocks: row.most_blocks,
            volumes: VolumeRows { items },
            nodes: NodeNumbers {
                items: self.nodes_from(1)?,
            },
        })
    }

    // The tenant asks what it has.
    pub(crate) fn tell_holding(&self, tenant: u8) -> Result<Output, OutOfMemory>
        requires { tenant < length self.now.plan.rows }
        ensures acts { IfOk result (λ out. Acts self.now tenant tells_holding out self.now) }
    {
        let holding = self.holding(tenant)?;
        Ok(Output::told(self.alloc, Answer::Has(holding)))
    }
}
