//! The world: the tenants of a plan and its servers, until memory runs out.

ghost use Rattle.std.specs.Prelude.{◌≡◌, ◌*◌, ◌<◌, ◌≤◌, ◌++◌, ◌∷◌, [], ℕ, List, true, false, length, IfOk, OnOk, OnErr, IsErr, option_map};
ghost use Rattle.gq_tag.specs.Tag.{File, file_of, message_of};
ghost use Rattle.gq_store.specs.Copies.{copy_at, blocks_free};
ghost use Rattle.gq_model.specs.declared.events.Event.{Event};
ghost use Rattle.gq_model.specs.Events.{IsIn, answer_to, past_at, server_past};
ghost use Rattle.gq_model.specs.Trace.{questions, held, own_message_at, up as up_of};
ghost use Rattle.gq_model.specs.Shown.{shown};
ghost use Rattle.gq_world.specs.Tables.{Stands, store_at, up_in};

use crate::tables::Core;
use gq_desk::Plan;
use gq_grid::ServerSet;
use gq_memory::OutOfMemory;
use gq_model::{Answer, Event};
use gq_store::ServerStore;
use gq_tag::MessageView;
use std::alloc::Global;
use std::marker::Model;
use thiserror::Error;

/// The tenants of a plan and its servers. What it has for a tenant depends on that tenant's lines and the server lines
/// alone.
pub struct World {
    tables: Core,
    ended: Option<OutOfMemory>,
}

impl Drop for World {
    fn drop(self) {
        let World { tables, ended: _ } = self;
        tables.close();
    }
}

impl Model for World {
    ghost use Rattle.std.specs.Prelude.{◌≡◌, false, is_some};
    ghost use Rattle.gq_world.specs.Whole.{Whole, AllSound};

    ghost Value = { Whole };

    ghost view = { λ w. record { tables = w.tables; ended = is_some w.ended } };

    ghost invariant = { λ w. is_some w.ended ≡ false → AllSound w.tables };
}

/// Memory was wanting, in this step or in an earlier one. The world answers no further line.
#[derive(Debug, Drop, Error)]
#[error("out of memory")]
pub struct Ended(pub OutOfMemory);

impl World {
    /// The world of the plan: all servers are up, no volume is open, and no line came. Where memory is wanting the plan is
    /// given up.
    pub fn new(alloc: Global, plan: Plan) -> Result<World, OutOfMemory>
        ensures plan { IfOk result (λ w. w.tables.plan ≡ plan) }
        ensures stands { IfOk result (λ w. Stands w.tables []) }
        ensures has_memory { IfOk result (λ w. w.ended ≡ false) }
    {
        let tables = Core::new(alloc, plan)?;
        Ok(World {
            tables,
            ended: None,
        })
    }

    /// The plan.
    pub fn plan(&self) -> &Plan
        ensures { result.now ≡ self.now.tables.plan }
    {
        self.tables.plan()
    }

    /// The servers that are up.
    pub fn up(&self) -> ServerSet
        ensures up { result ≡ self.now.tables.up }
        ensures stands { (events : List Event) → Stands self.now.tables events →
            up_in self.now.tables.plan.grid result ≡ up_of (server_past self.now.tables.plan events).trace }
    {
        self.tables.up()
    }

    /// The store of the server of this number: the one that has the copies of all tenants there.
    pub fn store(&self, server: usize) -> &ServerStore
        requires { server < self.now.tables.plan.grid.rows * self.now.tables.plan.grid.cols }
        ensures store { result.now ≡ store_at self.now.tables.stores server }
        ensures blocks { result.now.blocks ≡ self.now.tables.plan.blocks }
        ensures copies { (events : List Event) → Stands self.now.tables events → (t : ℕ) → t < length self.now.tables.plan.rows → (file : File) →
            copy_at result.now (file_of t file) ≡ held (questions (past_at self.now.tables.plan t events).trace) server file }
    {
        self.tables.store(server)
    }

    /// How many blocks of the server of this number no copy of any tenant takes.
    pub fn free(&self, server: usize) -> usize
        requires { server < self.now.tables.plan.grid.rows * self.now.tables.plan.grid.cols }
        ensures free { result ≡ blocks_free (store_at self.now.tables.stores server) }
        ensures bound { result ≤ self.now.tables.plan.blocks }
    {
        self.tables.store(server).free()
    }

    /// The tenant's message of this number, none where it is lost or was never sent. Its copy is lent.
    pub fn message(&self, tenant: u8, number: u64) -> Option<MessageView<'_>>
        requires { tenant < length self.now.tables.plan.rows }
        ensures { (events : List Event) → Stands self.now.tables events → result ≡
            option_map (message_of tenant) (own_message_at (questions (past_at self.now.tables.plan tenant events).trace) number) }
    {
        self.tables.message(tenant, number)
    }

    /// Answers the next event. A tenant's line is answered as in that tenant's run by itself, over its own lines and the
    /// server lines before, whatever the other tenants did; a server line by the server lines before it. `Ended` comes
    /// first where memory is wanting in the call, and from then on for each event, with nothing changed.
    #[inline(always)]
    pub fn step(&mut self, event: &Event) -> Result<Answer, Ended>
        requires { IsIn self.old.tables.plan event.now }
        ensures answer { IfOk result (λ answer. (events : List Event) → Stands self.old.tables events →
            shown answer ≡ answer_to self.old.tables.plan events event.now) }
        ensures stands { OnOk result ((events : List Event) → Stands self.old.tables events →
            Stands self.new.tables (events ++ event.now ∷ [])) }
        ensures plan { self.new.tables.plan ≡ self.old.tables.plan }
        ensures ended { OnErr result (self.new.ended ≡ true) }
        ensures after { self.old.ended ≡ true → IsErr result }
        ensures still { self.old.ended ≡ true → self.new ≡ self.old }
        ensures has_memory { OnOk result (self.new.ended ≡ false) }
    {
        if let Some(refused) = &self.ended {
            return Err(Ended(refused.again()));
        }
        match self.tables.advance(event) {
            Ok(answer) => Ok(answer),
            Err(refused) => {
                self.ended = Some(refused.again());
                Err(Ended(refused))
            }
        }
    }
}
