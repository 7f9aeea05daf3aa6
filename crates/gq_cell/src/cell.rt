//! A cell: one server's store with the journal of what it did.

ghost use Rattle.std.specs.Prelude.{◌≡◌, ◌≢◌, [], ◌∷◌, ◌++◌, ◌+◌, ◌*◌, ◌≤◌, ◌<◌, ◌^◌, None, Some, IfOk, IfErr, OnOk, OnErr, IsErrOf, true, false, length, slice_set, IsTrue, if◌then◌else◌};
ghost use Rattle.gq_tag.specs.Tag.{to_server};
ghost use Rattle.gq_tag.specs.declared.StoredCopy.{StoredCopy};
ghost use Rattle.gq_desk.specs.Volumes.{account_at, with_volume, free_of, limit_of};
ghost use Rattle.gq_store.specs.Copies.{empty_store, store_accounts};
ghost use Rattle.gq_store.specs.Serving.{server_reply, fault_in};
ghost use Rattle.gq_cell.specs.Journal.{IsLawful, is_up, last_stamp_of, served, copy_after, answer_at};
ghost use Rattle.gq_cell.specs.Laws.{RepliesNoOlder};
ghost use Rattle.gq_cell.specs.Serving.{Serves, cell_fault, with_entry};

use crate::letter::{CellEntry, Letter};
use gq_desk::Plan;
use gq_memory::{OutOfMemory, RoomInVec};
use gq_store::{ServeRefused, ServerStore, reply};
use gq_tag::{Body, Message};
use std::alloc::Global;
use std::marker::Model;
use std::sync::ledger;
use std::sync::ledger::{Blank, Book, Ledger};
use thiserror::Error;

/// One server's store, with the journal of what it did. Every cell is the replay of its journal: the copies that it holds,
/// whether the server is up, and the last stamp are what the journal leaves. Contracts see the server, the accounts of the
/// tenants and the journal (`Journaled`).
///
/// The ledger `L` names one cell by type: no share of another cell has it.
#[derive(Drop)]
pub struct Cell<L: Ledger> {
    server: u8,
    up: bool,
    last: u64,
    store: ServerStore,
    journal: Vec<CellEntry>,
    // how many letters were served
    served: Book<L>,
}

impl<L: Ledger> Model for Cell<L> {
    ghost use Rattle.gq_store.specs.Copies.{store_accounts};
    ghost use Rattle.gq_cell.specs.Keeping.{Journaled, Replays};

    ghost Value = { Journaled };

    ghost view = { λ c. record { server = c.server; accounts = store_accounts c.store; journal = c.journal.items } };

    ghost invariant = { λ c. Replays c.server c.up c.last c.served.total c.store c.journal.items };
}

/// How many replies one of the two workers of the cell of ledger `L` made.
#[derive(Drop)]
pub struct Share<L: Ledger> {
    count: u64,
    part: ledger::Share<L>,
}

impl<L: Ledger> Model for Share<L> {
    ghost use Rattle.std.specs.Prelude.{◌≡◌, ℕ};

    ghost Value = { ℕ };

    ghost view = { λ s. s.count };

    ghost invariant = { λ s. (s.part.parts ≡ 1) × (s.part.amount ≡ s.count) };
}

/// What a cell does with a letter.
#[derive(Debug, PartialEq, Eq, Drop)]
pub enum Served {
    /// It is up, and replies.
    Reply(Letter),
    /// It is down, and does nothing.
    Down,
}

/// Why a letter isn't served. The causes are tested in this order.
#[derive(Debug, Drop, Error)]
pub enum CellRefused {
    /// No greater stamp is left.
    #[error("no stamp left")]
    Stamps,
    /// The file is not there.
    #[error("no such file")]
    File,
    /// The content is longer than the blocks of the file: [`gq_tag::BLOCK_BYTES`] bytes for each.
    #[error("content over the file's limit")]
    Long,
    /// Memory is wanting.
    #[error("out of memory")]
    Memory(OutOfMemory),
}

impl<L: Ledger> Share<L> {
    /// How many replies were counted.
    pub fn count(&self) -> u64
        ensures { result ≡ self.now }
    {
        self.count
    }
}

// Counts one more reply of the worker.
fn count_one<L: Ledger>(served: &mut Book<L>, share: &mut Share<L>)
    requires { served.old.total + 1 < 2 ^ 64 }
    ensures total { served.new.total ≡ served.old.total + 1 }
    ensures count { share.new ≡ share.old + 1 }
{
    served.audit(&mut share.part);
    served.add(&mut share.part, 1);
    share.count += 1;
}

// A letter of the server that answers the letter.
fn answer(server: u8, stamp: u64, message: Message) -> Letter
    ensures { result ≡ record { place = server + 1; stamp = stamp; index = 0; message = message } }
{
    Letter {
        place: u32::from(server) + 1,
        stamp,
        index: 0,
        message,
    }
}

impl<L: Ledger> Cell<L> {
    /// The cell of a server of the plan, which is up and has done nothing, and a share for each of its two workers, which
    /// have counted nothing.
    ///
    /// `OutOfMemory` is want of memory: the blank is then given up.
    pub fn new(
        alloc: Global,
        plan: &Plan,
        server: u8,
        blank: Blank,
    ) -> Result<(Cell<L>, Share<L>, Share<L>), OutOfMemory>
        requires server { server < plan.now.grid.rows * plan.now.grid.cols }
        requires name { blank.name ≡ L.name }
        requires parts { blank.parts ≡ L.parts }
        requires two { L.parts ≡ 2 }
        ensures cell { IfOk result (λ made. made.0
            ≡ record { server = server; accounts = store_accounts (empty_store plan.now); journal = [] }) }
        ensures counts { IfOk result (λ made. (made.1 ≡ 0) × (made.2 ≡ 0)) }
    {
        let store = ServerStore::new(alloc, plan)?;
        let (served, mut rest) = blank.open::<L>();
        let part = rest.split_off(1, 0);
        let cell = Cell {
            server,
            up: true,
            last: 0,
            store,
            journal: Vec::new(alloc),
            served,
        };
        Ok((
            cell,
            Share { count: 0, part },
            Share {
                count: 0,
                part: rest,
            },
        ))
    }

    /// Adds the tenant's next volume, as [`ServerStore::add_files`] does: each new file has its first copy. The journal
    /// stays.
    ///
    /// `OutOfMemory` is want of memory: the cell is then as it was.
    pub fn add_files(&mut self, tenant: u8, files: u32, blocks: u32) -> Result<(), OutOfMemory>
        requires tenant { tenant < length self.old.accounts }
        requires share { files * blocks ≤ free_of (account_at self.old.accounts tenant) }
        ensures added { OnOk result (self.new ≡ record self.old {
          accounts = slice_set self.old.accounts tenant
              (with_volume (record { files = files; blocks = blocks }) (account_at self.old.accounts tenant));
        }) }
        ensures same { OnErr result (self.new ≡ self.old) }
    {
        self.store.add_files(tenant, files, blocks)?;
        Ok(())
    }

    /// The server's number.
    pub fn server(&self) -> u8
        ensures { result ≡ self.now.server }
    {
        self.server
    }

    /// Whether the server is up.
    pub fn up(&self) -> bool
        ensures { result ≡ is_up self.now.journal }
    {
        self.up
    }

    /// The stamp of the last entry, 0 before the first.
    pub fn last(&self) -> u64
        ensures { result ≡ last_stamp_of self.now.journal }
    {
        self.last
    }

    /// What was done, in order. It is lawful.
    pub fn journal(&self) -> &[CellEntry]
        ensures entries { result.now ≡ self.now.journal }
        ensures lawful { IsLawful self.now.server result.now }
    {
        self.journal.as_slice()
    }

    // Why the letter isn't served by a cell that is up, want of memory apart.
    fn refusal(&self, letter: &Letter) -> Option<CellRefused>
        ensures { result ≡ cell_fault self.now letter.now }
    {
        if self.last.max(letter.stamp) == u64::MAX {
            return Some(CellRefused::Stamps);
        }
        let Some(limit) = self.store.limit(letter.message.file) else {
            return Some(CellRefused::File);
        };
        match &letter.message.body {
            Body::Store(copy) if copy.bytes.len() as u64 > limit => Some(CellRefused::Long),
            _ => None,
        }
    }

    /// Replies to an ask or a store of its server from the store, at the stamp above the cell's last and the letter's. The
    /// reply is one entry more, and one more in the worker's share. A cell that is down does nothing, whatever the letter.
    ///
    /// The causes of a refusal of a cell that is up are tested in the order of [`CellRefused`], and a refusal changes
    /// nothing.
    pub fn serve(&mut self, share: &mut Share<L>, letter: &Letter) -> Result<Served, CellRefused>
        requires here { letter.now.message.server ≡ self.old.server }
        requires asks { IsTrue (to_server letter.now.message.body) }
        ensures served { IfOk result (λ done. Serves letter.now self.old self.new share.old share.new done) }
        ensures down { is_up self.old.journal ≡ false → OnOk result (self.new ≡ self.old) }
        ensures allowed { OnOk result (is_up self.old.journal ≡ true → cell_fault self.old letter.now ≡ None) }
        ensures refused { IfErr result (λ fault. fault ≢ CellRefused.Memory tt
            → cell_fault self.old letter.now ≡ Some fault) }
        ensures memory { IsErrOf result (CellRefused.Memory tt) → cell_fault self.old letter.now ≡ None }
        ensures up { OnErr result (is_up self.old.journal ≡ true) }
        ensures same { OnErr result ((self.new ≡ self.old) × (share.new ≡ share.old)) }
    {
        if !self.up {
            return Ok(Served::Down);
        }
        if let Some(fault) = self.refusal(letter) {
            return Err(fault);
        }
        let stamp = self.last.max(letter.stamp) + 1;
        let replied = match &letter.message.body {
            Body::Store(_) => self.keep(share, letter, stamp),
            _ => self.tell(share, letter, stamp),
        };
        match replied {
            Ok(reply) => Ok(Served::Reply(reply)),
            Err(refused) => Err(CellRefused::Memory(refused)),
        }
    }

    // Replies to an ask.
    fn tell(
        &mut self,
        share: &mut Share<L>,
        letter: &Letter,
        stamp: u64,
    ) -> Result<Letter, OutOfMemory>
        requires here { letter.now.message.server ≡ self.old.server }
        requires ask { letter.now.message.body ≡ Body.Ask }
        requires allowed { fault_in (limit_of self.old.accounts letter.now.message.file) letter.now.message.body ≡ None }
        requires up { is_up self.old.journal ≡ true }
        requires stamp { (last_stamp_of self.old.journal < stamp) × (letter.now.stamp < stamp) }
        ensures reply { IfOk result (λ reply. reply ≡ answer_at self.old.server self.old.journal stamp letter.now) }
        ensures entry { IfOk result (λ reply. self.new ≡ with_entry (CellEntry.Served letter.now reply) self.old) }
        ensures counted { OnOk result (share.new ≡ share.old + 1) }
        ensures same { OnErr result ((self.new ≡ self.old) × (share.new ≡ share.old)) }
    {
        let letter_kept = letter.share()?;
        self.journal.make_room(1)?;
        let message = match self.store.serve(&letter.message) {
            Ok(message) => message,
            Err(ServeRefused::Memory(refused)) => return Err(refused),
            Err(_) => unreachable!(),
        };
        let told = answer(self.server, stamp, message);
        let reply_kept = told.share()?;
        count_one(&mut self.served, share);
        self.last = stamp;
        self.journal.push_reserved(CellEntry::Served {
            letter: letter_kept,
            reply: reply_kept,
        });
        Ok(told)
    }

    // Replies to a store.
    fn keep(
        &mut self,
        share: &mut Share<L>,
        letter: &Letter,
        stamp: u64,
    ) -> Result<Letter, OutOfMemory>
        requires here { letter.now.message.server ≡ self.old.server }
        requires store { (copy : StoredCopy) × (letter.now.message.body ≡ Body.Store copy) }
        requires allowed { fault_in (limit_of self.old.accounts letter.now.message.file) letter.now.message.body ≡ None }
        requires up { is_up self.old.journal ≡ true }
        requires stamp { (last_stamp_of self.old.journal < stamp) × (letter.now.stamp < stamp) }
        ensures reply { IfOk result (λ reply. reply ≡ answer_at self.old.server self.old.journal stamp letter.now) }
        ensures entry { IfOk result (λ reply. self.new ≡ with_entry (CellEntry.Served letter.now reply) self.old) }
        ensures counted { OnOk result (share.new ≡ share.old + 1) }
        ensures same { OnErr result ((self.new ≡ self.old) × (share.new ≡ share.old)) }
    {
        let heard = letter.share()?;
        self.journal.make_room(1)?;
        let Ok(acknowledged) = self.store.serve(&letter.message) else {
            unreachable!()
        };
        let acknowledgement = answer(self.server, stamp, acknowledged);
        let kept = answer(self.server, stamp, reply(&letter.message, Body::Stored));
        count_one(&mut self.served, share);
        self.last = stamp;
        self.journal.push_reserved(CellEntry::Served {
            letter: heard,
            reply: kept,
        });
        Ok(acknowledgement)
    }

    /// Stops the server, or brings it back, at a stamp above the last: one entry more.
    ///
    /// `OutOfMemory` is want of memory: the cell is then as it was.
    pub fn set_up(&mut self, up: bool, stamp: u64) -> Result<(), OutOfMemory>
        requires differs { is_up self.old.journal ≢ up }
        requires stamp { last_stamp_of self.old.journal < stamp }
        ensures set { OnOk result (self.new ≡ with_entry (if up then CellEntry.Back stamp else CellEntry.Stop stamp) self.old) }
        ensures same { OnErr result (self.new ≡ self.old) }
    {
        self.journal.make_room(1)?;
        self.up = up;
        self.last = stamp;
        if up {
            self.journal.push_reserved(CellEntry::Back { stamp });
        } else {
            self.journal.push_reserved(CellEntry::Stop { stamp });
        }
        Ok(())
    }

    /// Gives the journal and ends the cell. The journal has as many served letters as the workers counted together. It is
    /// lawful; so no reply to an ask is older than a store of the file that was served before.
    pub fn close(self, mine: Share<L>, other: Share<L>) -> Vec<CellEntry>
        requires { L.parts ≡ 2 }
        ensures journal { result.items ≡ self.journal }
        ensures lawful { IsLawful self.server result.items }
        ensures counted { served result.items ≡ mine + other }
        ensures later { RepliesNoOlder result.items }
    {
        let Cell {
            journal,
            mut served,
            ..
        } = self;
        let Share { mut part, .. } = mine;
        part.merge(other.part);
        served.audit(&mut part);
        journal
    }
}
