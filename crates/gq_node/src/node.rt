//! The node, until memory runs out.

ghost use Rattle.std.specs.Prelude.{◌≡◌, ◌*◌, ◌<◌, ◌≤◌, ℕ, List, [], true, false, length, nat_lt, IfOk, IfErr, OnOk, OnErr, IsErr};
ghost use Rattle.gq_tag.specs.declared.TheConstants.{MOST_FILES};
ghost use Rattle.gq_tag.specs.Tag.{own_message, file_place};
ghost use Rattle.gq_grid.specs.Sets.{servers};
ghost use Rattle.gq_desk.specs.declared.limits.TheConstants.{MOST_VOLUMES};
ghost use Rattle.gq_desk.specs.CheckedPlan.{row_at};
ghost use Rattle.gq_desk.specs.Volumes.{IsRefusedFor, open_fault, account_at};
ghost use Rattle.gq_node.specs.Bounds.{IsBounded, content_bytes};
ghost use Rattle.gq_replace.specs.Plans.{place_of};
ghost use Rattle.gq_node.specs.Sites.{address_of, session_at, site_of};
ghost use Rattle.gq_node.specs.Local.{new_local, asks, tells_holding, receives, ticks, recalls};
ghost use Rattle.gq_node.specs.Looked.{tells_look};
ghost use Rattle.gq_node.specs.Recalling.{tenant_of, own_fact, fits_in};
ghost use Rattle.gq_node.specs.Needing.{IsRefusedIn};
ghost use Rattle.gq_node.specs.Resting.{Needed};
ghost use Rattle.gq_node.specs.Opening.{Bereaves, Opens};
ghost use Rattle.gq_node.specs.Joining.{tells_joined, hears_joined, awaited, lacked_files, looks, gives, takes};
ghost use Rattle.gq_node.specs.Shorts.{own_short, takes_short};
ghost use Rattle.gq_node.specs.ShortSteps.{ActsShortly, ShortFormIs, form_at};
ghost use Rattle.gq_node.specs.Tables.{Acts, Leads, LeadsAll, Agrees, AllStand, lacks_at};

use crate::lost::Lost;
use crate::output::{Fact, NeedRefused, Output};
use crate::shorts::{Short, ShortOutput};
use crate::tables::Core;
use gq_desk::{OpenRefused, Plan};
use gq_memory::OutOfMemory;
use gq_model::Line;
use gq_tag::{FileId, Message, StoredCopy};
use std::alloc::Global;
use std::marker::Model;
use thiserror::Error;

/// A node: the server of one number, and the home of some sessions of each tenant. What it has for a tenant, tells it
/// and sends for it depends on that tenant's lines and letters and on the ticks alone.
#[derive(Drop)]
pub struct Node {
    tables: Core,
    ended: Option<OutOfMemory>,
}

impl Model for Node {
    ghost use Rattle.std.specs.Prelude.{◌≡◌, false, is_some};
    ghost use Rattle.gq_node.specs.Tables.{Whole, AllStand};

    ghost Value = { Whole };

    ghost view = { λ w. record { tables = w.tables; ended = is_some w.ended } };

    ghost invariant = { λ w. is_some w.ended ≡ false → AllStand w.tables };
}

/// Memory was wanting, in this step or in an earlier one. The node takes no further line.
#[derive(Debug, Drop, Error)]
#[error("out of memory")]
pub struct Ended(pub OutOfMemory);

impl Node {
    /// The node of this number, which was never started, by a plan in which these nodes were lost: no volume is open.
    /// Where memory is wanting the plan is given up.
    pub fn new(alloc: Global, plan: Plan, lost: Lost, node: u16) -> Result<Node, OutOfMemory>
        requires { place_of node < plan.grid.rows * plan.grid.cols }
        ensures plan { IfOk result (λ w. w.tables.plan ≡ plan) }
        ensures here { IfOk result (λ w. w.tables.here ≡ record { node = node; lost = lost }) }
        ensures agrees { IfOk result (λ w. (t : ℕ) → t < length plan.rows → Agrees w.tables t (new_local plan.grid (place_of node) [])) }
        ensures has_memory { IfOk result (λ w. w.ended ≡ false) }
    {
        let tables = Core::new(alloc, plan, lost, node)?;
        Ok(Node {
            tables,
            ended: None,
        })
    }

    /// Where this is a new node, it begins with a plan by which the tenant has so many volumes, and so many nodes were lost: its
    /// server lacks their files, and for each session of the tenant whose home it is so many numbers of tags are reserved that
    /// all that a lost node wrote has lower ones. No fact was read yet. Where memory is wanting the node is given up.
    pub fn lack(&mut self, tenant: u8, volumes: usize, losses: u16) -> Result<(), OutOfMemory>
        requires tenant { tenant < length self.old.tables.plan.rows }
        requires few { volumes ≤ MOST_VOLUMES }
        requires first { Agrees self.old.tables tenant (new_local self.old.tables.plan.grid (place_of self.old.tables.here.node) (account_at self.old.tables.desk tenant).volumes) }
        requires has_memory { self.old.ended ≡ false }
        ensures begins { OnOk result (Bereaves self.old.tables tenant (record { volumes = volumes; losses = losses }) self.new.tables) }
        ensures ended { OnErr result (self.new.ended ≡ true) }
        ensures has_memory { OnOk result (self.new.ended ≡ false) }
    {
        match self.tables.lack(tenant, volumes, losses) {
            Ok(()) => Ok(()),
            Err(refused) => {
                self.ended = Some(refused.again());
                Err(refused)
            }
        }
    }

    /// Opens the next volume of the tenant at that place of the plan: so many files of so many blocks each. The causes
    /// of a refusal are tested in the order of [`OpenRefused`]; the node is then given up.
    pub fn open(self, tenant: u8, files: u32, blocks: u32) -> Result<Node, OpenRefused>
        requires tenant { tenant < length self.tables.plan.rows }
        requires has_memory { self.ended ≡ false }
        ensures opened { IfOk result (λ w. Opens self.tables tenant (record { files = files; blocks = blocks }) w.tables) }
        ensures has_memory { IfOk result (λ w. w.ended ≡ false) }
        ensures refused { IfErr result (IsRefusedFor (open_fault (account_at self.tables.desk tenant) (record { files = files; blocks = blocks }))) }
    {
        let Node { tables, ended: _ } = self;
        let tables = tables.open(tenant, files, blocks)?;
        Ok(Node {
            tables,
            ended: None,
        })
    }

    /// Reads a fact of an earlier run: a session goes on behind the numbers that it reserves. Answers whether it fits
    /// the plan and its volumes; one that does not changes nothing.
    pub fn recall(&mut self, fact: &Fact) -> bool
        requires { tenant_of fact.now < length self.old.tables.plan.rows }
        ensures leads { Leads self.old.tables (tenant_of fact.now) (recalls (own_fact fact.now)) self.new.tables }
        ensures fits { result ≡ fits_in self.old.tables fact.now }
        ensures none { result ≡ false → self.new.tables ≡ self.old.tables }
        ensures desk { self.new.tables.desk ≡ self.old.tables.desk }
        ensures ended { self.new.ended ≡ self.old.ended }
    {
        self.tables.recall(fact)
    }

    /// Whether the node takes lines, since memory was never wanting. Then it has a part for each tenant.
    pub fn has_memory(&self) -> Result<(), Ended>
        ensures stand { OnOk result (AllStand self.now.tables) }
        ensures has_memory { OnOk result (self.now.ended ≡ false) }
        ensures ended { OnErr result (self.now.ended ≡ true) }
    {
        match &self.ended {
            Some(refused) => Err(Ended(refused.again())),
            None => Ok(()),
        }
    }

    /// The facts that a start needs to know what this node knows, its sessions' operations gone, and the sessions
    /// behind the numbers that are reserved for them. `Unreadable` comes only where a file has a copy that a start
    /// would not take again.
    pub fn needed(&self) -> Result<Vec<Fact>, NeedRefused>
        ensures needed { IfOk result (λ facts. Needed self.now.tables facts.items) }
        ensures refused { IfErr result (IsRefusedIn self.now.tables) }
    {
        self.tables.needed()
    }

    /// A call that does nothing: its clause says that the node holds no more than the plan has room for, whatever came
    /// to it.
    pub fn bounded(&self)
        ensures { IsBounded self.now.tables }
    {
        self.tables.bounded();
    }

    /// How many bytes the contents take at the server, in whole blocks. It costs no look at each of them.
    pub fn content_bytes(&self) -> usize
        ensures { result ≡ content_bytes self.now.tables }
    {
        self.tables.content_bytes()
    }

    /// The plan.
    pub fn plan(&self) -> &Plan
        ensures { result.now ≡ self.now.tables.plan }
    {
        self.tables.plan()
    }

    /// The number of the node.
    pub fn number(&self) -> u16
        ensures { result ≡ self.now.tables.here.node }
    {
        self.tables.node()
    }

    /// The nodes that were lost, as the node's plan says.
    pub fn lost(&self) -> &Lost
        ensures { result.now ≡ self.now.tables.here.lost }
    {
        self.tables.lost()
    }

    /// The node that the letter goes to.
    pub fn address(&self, message: &Message) -> u16
        requires { message.now.tenant < length self.now.tables.plan.rows }
        ensures { result ≡ address_of self.now.tables.plan self.now.tables.here message.now }
    {
        self.tables.address(message)
    }

    /// Takes a line of a tenant with the number that its operation is to have. `Ended` comes first where memory is
    /// wanting in the call, and from then on for each line, with nothing changed; so in all calls that may answer it.
    pub fn request(&mut self, tenant: u8, op: u32, line: &Line) -> Result<Output, Ended>
        requires { tenant < length self.old.tables.plan.rows }
        ensures acts { IfOk result (λ out. Acts self.old.tables tenant (asks op line.now) out self.new.tables) }
        ensures ended { OnErr result (self.new.ended ≡ true) }
        ensures after { self.old.ended ≡ true → IsErr result }
        ensures still { self.old.ended ≡ true → self.new ≡ self.old }
        ensures has_memory { OnOk result (self.new.ended ≡ false) }
    {
        if let Some(refused) = &self.ended {
            return Err(Ended(refused.again()));
        }
        match self.tables.request(tenant, op, line) {
            Ok(out) => Ok(out),
            Err(refused) => {
                self.ended = Some(refused.again());
                Err(Ended(refused))
            }
        }
    }

    /// Takes the question of a tenant what it has. It is told, and nothing changes.
    pub fn holding(&mut self, tenant: u8) -> Result<Output, Ended>
        requires { tenant < length self.old.tables.plan.rows }
        ensures acts { IfOk result (λ out. Acts self.old.tables tenant tells_holding out self.new.tables) }
        ensures same { self.new.tables ≡ self.old.tables }
        ensures ended { OnErr result (self.new.ended ≡ true) }
        ensures after { self.old.ended ≡ true → IsErr result }
        ensures still { self.old.ended ≡ true → self.new ≡ self.old }
        ensures has_memory { OnOk result (self.new.ended ≡ false) }
    {
        if let Some(refused) = &self.ended {
            return Err(Ended(refused.again()));
        }
        match self.tables.tell_holding(tenant) {
            Ok(out) => Ok(out),
            Err(refused) => {
                self.ended = Some(refused.again());
                Err(Ended(refused))
            }
        }
    }

    /// Takes the question of a tenant, which it gave that number, what this node's server has of a volume: of each file the length and the tag
    /// of its copy. It is told with how many losses the node's plan tells of, and nothing changes. Where whole rows and columns of servers tell
    /// so much, a client knows which content a read gives, without one: it is a collect round that nobody but the client hears (Attiya,
    /// Bar-Noy and Dolev, Sharing memory robustly in message-passing systems, JACM 42(1), 1995).
    pub fn look_at(&mut self, tenant: u8, mark: u64, volume: u32) -> Result<Output, Ended>
        requires { tenant < length self.old.tables.plan.rows }
        ensures acts { IfOk result (λ out. Acts self.old.tables tenant (tells_look mark volume) out self.new.tables) }
        ensures same { self.new.tables ≡ self.old.tables }
        ensures ended { OnErr result (self.new.ended ≡ true) }
        ensures after { self.old.ended ≡ true → IsErr result }
        ensures still { self.old.ended ≡ true → self.new ≡ self.old }
        ensures has_memory { OnOk result (self.new.ended ≡ false) }
    {
        if let Some(refused) = &self.ended {
            return Err(Ended(refused.again()));
        }
        match self.tables.tell_look(tenant, mark, volume) {
            Ok(out) => Ok(out),
            Err(refused) => {
                self.ended = Some(refused.again());
                Err(Ended(refused))
            }
        }
    }

    /// Takes a letter from the node of that number. One that no honest node sends to this one is passed over.
    pub fn letter(&mut self, from: u16, message: &Message) -> Result<Output, Ended>
        requires tenant { message.now.tenant < length self.old.tables.plan.rows }
        requires own { message.now.file.tenant ≡ message.now.tenant }
        ensures acts { IfOk result (λ out. Acts self.old.tables message.now.tenant (receives from (own_message message.now)) out self.new.tables) }
        ensures ended { OnErr result (self.new.ended ≡ true) }
        ensures after { self.old.ended ≡ true → IsErr result }
        ensures still { self.old.ended ≡ true → self.new ≡ self.old }
        ensures has_memory { OnOk result (self.new.ended ≡ false) }
    {
        if let Some(refused) = &self.ended {
            return Err(Ended(refused.again()));
        }
        match self.tables.letter(from, message) {
            Ok(out) => Ok(out),
            Err(refused) => {
                self.ended = Some(refused.again());
                Err(Ended(refused))
            }
        }
    }

    /// Takes a short letter from the node of that number. What it does by it, and gives, is so for each content that the letter's copy
    /// may have.
    pub fn short(&mut self, from: u16, short: &Short) -> Result<ShortOutput, Ended>
        requires tenant { short.now.tenant < length self.old.tables.plan.rows }
        requires own { short.now.file.tenant ≡ short.now.tenant }
        ensures acts { IfOk result (λ given. (bytes : List ℕ) → ActsShortly self.old.tables short.now.tenant (takes_short from (own_short short.now) bytes) given self.new.tables) }
        ensures ended { OnErr result (self.new.ended ≡ true) }
        ensures after { self.old.ended ≡ true → IsErr result }
        ensures still { self.old.ended ≡ true → self.new ≡ self.old }
        ensures has_memory { OnOk result (self.new.ended ≡ false) }
    {
        if let Some(refused) = &self.ended {
            return Err(Ended(refused.again()));
        }
        match self.tables.short(from, short) {
            Ok(given) => Ok(given),
            Err(refused) => {
                self.ended = Some(refused.again());
                Err(Ended(refused))
            }
        }
    }

    /// The short form of a letter from a session of this node, where it has one.
    pub fn short_of(&self, message: &Message) -> Option<Short>
        requires tenant { message.now.tenant < length self.now.tables.plan.rows }
        requires own { message.now.file.tenant ≡ message.now.tenant }
        ensures is { result ≡ form_at self.now.tables message.now }
        ensures stands { ShortFormIs self.now.tables message.now result }
    {
        self.tables.short_of(message)
    }

    /// Whether a new node that asks is told that this one's plan has it, and so many losses or more.
    pub fn tells_joined(&self, from: u16, losses: u32) -> bool
        ensures { (t : ℕ) → result ≡ tells_joined from losses (site_of self.now.tables.plan self.now.tables.here t) }
    {
        self.tables.tells_joined(from, losses)
    }

    /// Takes the word of the node of that number that its plan has this one, and so many losses. It counts where this is a
    /// new node, and its own plan has that node and as many losses.
    pub fn hear_joined(&mut self, from: u16, losses: u32) -> Result<(), Ended>
        ensures leads { OnOk result (LeadsAll self.old.tables (hears_joined from losses) self.new.tables) }
        ensures ended { OnErr result (self.new.ended ≡ true) }
        ensures after { self.old.ended ≡ true → IsErr result }
        ensures still { self.old.ended ≡ true → self.new ≡ self.old }
        ensures has_memory { OnOk result (self.new.ended ≡ false) }
    {
        if let Some(refused) = &self.ended {
            return Err(Ended(refused.again()));
        }
        self.tables.join(from, losses);
        Ok(())
    }

    /// The other nodes of the plan whose word, that they have joined, did not come since the start, in rising order.
    pub fn awaited(&self) -> Result<Vec<u16>, OutOfMemory>
        ensures { IfOk result (λ nodes. (t : ℕ) → nodes.items ≡ awaited (site_of self.now.tables.plan self.now.tables.here t) (servers self.now.tables.joined)) }
    {
        self.tables.awaited()
    }

    /// Whether the server lacks a file of the tenant. It asks each volume of the tenant once, however many files it was given.
    pub fn lacks_some(&self, tenant: u8) -> bool
        requires { tenant < length self.now.tables.plan.rows }
        ensures { result ≡ nat_lt 0 (lacked_files (lacks_at self.now.tables tenant) (account_at self.now.tables.desk tenant).volumes) }
    {
        self.tables.lacks_some(tenant)
    }

    /// How many files of the tenant the server lacks. It looks at each file of the tenant.
    pub fn lacked(&self, tenant: u8) -> usize
        requires { tenant < length self.now.tables.plan.rows }
        ensures lacked { result ≡ lacked_files (lacks_at self.now.tables tenant) (account_at self.now.tables.desk tenant).volumes }
        ensures few { result ≤ MOST_VOLUMES * MOST_FILES }
    {
        self.tables.lacked(tenant)
    }

    /// Takes a tick for the lane, behind those of the tenant's sessions. Once all other nodes have joined, the first file of the lane that
    /// the server lacks is asked of a node of its column: at lane 0 of the next one, and at any other of that one again. A tick of the node is
    /// one for each lane, in order.
    pub fn look(&mut self, tenant: u8, lane: u32) -> Result<Output, Ended>
        requires { tenant < length self.old.tables.plan.rows }
        ensures acts { IfOk result (λ out. Acts self.old.tables tenant (looks lane) out self.new.tables) }
        ensures ended { OnErr result (self.new.ended ≡ true) }
        ensures after { self.old.ended ≡ true → IsErr result }
        ensures still { self.old.ended ≡ true → self.new ≡ self.old }
        ensures has_memory { OnOk result (self.new.ended ≡ false) }
    {
        if let Some(refused) = &self.ended {
            return Err(Ended(refused.again()));
        }
        Ok(self.tables.look(tenant, lane))
    }

    /// Takes a question of the node of that number for this one's copy of the file. It is given where that is a node of
    /// this one's column, and the server has the file.
    pub fn fetch(&mut self, from: u16, file: FileId) -> Result<Output, Ended>
        requires { file.tenant < length self.old.tables.plan.rows }
        ensures acts { IfOk result (λ out. Acts self.old.tables file.tenant (gives from (file_place file)) out self.new.tables) }
        ensures same { self.new.tables ≡ self.old.tables }
        ensures ended { OnErr result (self.new.ended ≡ true) }
        ensures after { self.old.ended ≡ true → IsErr result }
        ensures still { self.old.ended ≡ true → self.new ≡ self.old }
        ensures has_memory { OnOk result (self.new.ended ≡ false) }
    {
        if let Some(refused) = &self.ended {
            return Err(Ended(refused.again()));
        }
        match self.tables.give(from, file) {
            Ok(out) => Ok(out),
            Err(refused) => {
                self.ended = Some(refused.again());
                Err(Ended(refused))
            }
        }
    }

    /// Takes the copy of the file that the node of that number gives. The server has it from then on, where it lacked the
    /// file and that is a node of its column, and the next file of the same lane that it lacks is asked of that node at once.
    pub fn fetched(&mut self, from: u16, file: FileId, copy: StoredCopy) -> Result<Output, Ended>
        requires { file.tenant < length self.old.tables.plan.rows }
        ensures acts { IfOk result (λ out. Acts self.old.tables file.tenant (takes from (file_place file) copy) out self.new.tables) }
        ensures ended { OnErr result (self.new.ended ≡ true) }
        ensures after { self.old.ended ≡ true → IsErr result }
        ensures still { self.old.ended ≡ true → self.new ≡ self.old }
        ensures has_memory { OnOk result (self.new.ended ≡ false) }
    {
        if let Some(refused) = &self.ended {
            return Err(Ended(refused.again()));
        }
        Ok(self.tables.take(from, file, copy))
    }

    /// Takes a tick for the session at that place of the tenant's, from 0: a tick of the node is one for each session of
    /// each tenant, in order.
    pub fn tick(&mut self, tenant: u8, place: usize) -> Result<Output, Ended>
        requires tenant { tenant < length self.old.tables.plan.rows }
        requires place { place < (row_at self.old.tables.plan tenant).sessions }
        ensures acts { IfOk result (λ out. Acts self.old.tables tenant (ticks (session_at self.old.tables.plan self.old.tables.here tenant place)) out self.new.tables) }
        ensures ended { OnErr result (self.new.ended ≡ true) }
        ensures after { self.old.ended ≡ true → IsErr result }
        ensures still { self.old.ended ≡ true → self.new ≡ self.old }
        ensures has_memory { OnOk result (self.new.ended ≡ false) }
    {
        if let Some(refused) = &self.ended {
            return Err(Ended(refused.again()));
        }
        match self.tables.tick(tenant, place) {
            Ok(out) => Ok(out),
            Err(refused) => {
                self.ended = Some(refused.again());
                Err(Ended(refused))
            }
        }
    }
}
