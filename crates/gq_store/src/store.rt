//! The store of one server, and the messages that it answers.
ghost use Rattle.std.specs.Prelude.{◌≡◌, ◌≢◌, ◌↔◌, ℕ, ◌+◌, ◌*◌, ◌^◌, ◌<◌, ◌≤◌, [], ◌++◌, length, map, vec_len, vec_capacity, None, Some, true, IfOk, IfErr, IfSome, OnOk, OnErr, IsErrOf, IsSome, IsTrue, slice_set};
ghost use Rattle.std.specs.List.{sum_by};
ghost use Rattle.gq_tag.specs.declared.FileId.{FileId};
ghost use Rattle.gq_tag.specs.Tag.{is_less, newer_of, first_copy, to_server};
ghost use Rattle.gq_desk.specs.Volumes.{with_volume, free_of};
ghost use Rattle.gq_store.specs.Copies.{TenantCopies, copy_at, copies_account, store_accounts, tenant_account, file_limit, tenant_taken, blocks_taken, blocks_free, empty_store, new_tenant, lost_tenant, lost_copies, tenants_with};

use crate::entry::Entry;
use crate::volumes::Tenant;
use bytes::Bytes;
use gq_desk::{Plan, TenantRow};
use gq_memory::{GrowCopies, OutOfMemory, bytes_of, filled, room_for};
use gq_pool::Pool;
use gq_tag::{Body, FileId, Message, StoredCopy, Tag};
use std::alloc::Global;
use std::marker::Model;
use thiserror::Error;

/// What a `put` did.
#[derive(Clone, Copy, PartialEq, Eq)]
pub enum Put {
    /// The tag was greater than that of the file's copy, which the one put replaced.
    Kept,
    /// The tag was not greater; the file's copy is as it was.
    Older,
}

/// Why a message isn't served. The causes are tested in this order.
#[derive(Debug, Drop, Error)]
pub enum ServeRefused {
    /// The file is not there.
    #[error("no such file")]
    File,
    /// The content is longer than the blocks of the file: [`gq_tag::BLOCK_BYTES`] bytes for each.
    #[error("content over the file's limit")]
    Long,
    /// Memory is wanting, for the content of a copy that an ask is to be given.
    #[error("out of memory")]
    Memory(OutOfMemory),
}

/// The copies of all tenants' files on one server. Contracts see the copies by tenant, volume and file, and the number
/// of blocks in all, free and taken (`StoreCopies`).
///
/// All blocks are taken from memory at the start. Each tenant's files stay within its share of them, and the shares
/// within the blocks, so that a `put` finds the blocks that it needs whatever the other tenants do. A store that is let
/// go, also inside something larger, gives all its memory back, as by `close`.
pub struct ServerStore {
    alloc: Global,
    blocks: u32,
    pool: Pool,
    tenants: Vec<Tenant>,
}

impl Model for ServerStore {
    ghost use Rattle.gq_store.specs.Copies.{StoreCopies};
    ghost use Rattle.gq_store.specs.Balance.{Balanced};

    ghost Value = { StoreCopies };

    ghost view = { λ s. record { blocks = s.blocks; tenants = s.tenants.items } };

    ghost invariant = { λ s. Balanced s.blocks s.pool s.tenants.items };
}

impl Drop for ServerStore {
    fn drop(self) {
        let ServerStore {
            alloc: _,
            blocks: _,
            pool,
            tenants,
        } = self;
        give_back(pool, tenants);
    }
}

// Gives all blocks back to memory.
fn give_back(mut pool: Pool, mut tenants: Vec<Tenant>)
    requires { pool + sum_by tenant_taken tenants.items < 2 ^ 64 }
{
    while let Some(tenant) = tenants.pop() {
        tenant.spend(&mut pool);
    }
    tenants.destroy_empty();
    pool.close();
}

// Loses the copies of all tenants, and gives their blocks back.
fn lose_copies(pool: &mut Pool, tenants: &mut [Tenant])
    requires { pool.old + sum_by tenant_taken tenants.old < 2 ^ 64 }
    ensures copies { tenants.new ≡ map lost_tenant tenants.old }
    ensures free { pool.new ≡ pool.old + sum_by tenant_taken tenants.old }
{
    for tenant in tenants.iter_mut() {
        tenant.lose(pool);
    }
}

// Takes the copies of all tenants from the peers', which have the same accounts.
fn take_copies(pool: &mut Pool, tenants: &mut [Tenant], peers: &[Tenant])
    requires accounts { map copies_account tenants.old ≡ map copies_account peers.now }
    requires fits { pool.old + sum_by tenant_taken tenants.old < 2 ^ 64 }
    requires room { sum_by tenant_taken peers.now ≤ pool.old }
    ensures copies { tenants.new ≡ peers.now }
    ensures free { pool.new + sum_by tenant_taken peers.now ≡ pool.old + sum_by tenant_taken tenants.old }
{
    for (place, tenant) in tenants.iter_mut().enumerate() {
        tenant.take_from(pool, &peers[place]);
    }
}

// Adds a tenant without volumes for each row.
fn add_tenants(alloc: Global, tenants: &mut Vec<Tenant>, rows: &[TenantRow])
    requires { vec_len tenants.old + length rows.now ≤ vec_capacity tenants.old }
    ensures { tenants.new.items ≡ tenants.old.items ++ map new_tenant rows.now }
{
    for row in rows {
        tenants.push_reserved(Tenant::new(alloc, row));
    }
}

/// An answer of that body to the message, in the same round of the operation.
pub fn reply(message: &Message, body: Body) -> Message
    ensures { result ≡ record message.now { body = body } }
{
    Message {
        tenant: message.tenant,
        session: message.session,
        op: message.op,
        round: message.round,
        server: message.server,
        file: message.file,
        body,
    }
}

impl ServerStore {
    ghost use Rattle.gq_store.specs.Serving.{serve_fault, server_reply, held_after};

    /// The store of a server of the plan: no volume is there, and all blocks are free. It makes one request for memory
    /// for each block, and one for the table of the tenants.
    ///
    /// `OutOfMemory` is want of memory: all that was taken until then was given back.
    pub fn new(alloc: Global, plan: &Plan) -> Result<ServerStore, OutOfMemory>
        ensures { IfOk result (λ store. store ≡ empty_store plan.now) }
    {
        let blocks = plan.blocks();
        let mut tenants = room_for(alloc, plan.tenants())?;
        match Pool::new(alloc, blocks as usize) {
            Ok(pool) => {
                add_tenants(alloc, &mut tenants, plan.rows());
                Ok(ServerStore {
                    alloc,
                    blocks,
                    pool,
                    tenants,
                })
            }
            Err(error) => {
                tenants.destroy_empty();
                Err(error)
            }
        }
    }

    /// Adds the next volume of the tenant at that place of the plan: so many files, of at most so many blocks each. Each
    /// new file has its first copy, tag (0,0) and empty, as every file counts before it is there, and all other files keep
    /// theirs; so no file's copy changes. The volume's blocks have to fit in what the volumes before leave of the tenant's
    /// share, in blocks. It makes as many requests for memory for many files as for one, and takes no block.
    ///
    /// `OutOfMemory` is want of memory: the store is then as it was.
    pub fn add_files(&mut self, tenant: u8, files: u32, blocks: u32) -> Result<(), OutOfMemory>
        requires tenant { tenant < length (store_accounts self.old) }
        requires share { files * blocks ≤ free_of (tenant_account self.old tenant) }
        ensures added { OnOk result (store_accounts self.new ≡ slice_set (store_accounts self.old) tenant
            (with_volume (record { files = files; blocks = blocks }) (tenant_account self.old tenant))) }
        ensures copies { OnOk result ((file : FileId) → copy_at self.new file ≡ copy_at self.old file) }
        ensures blocks { self.new.blocks ≡ self.old.blocks }
        ensures same { OnErr result (self.new ≡ self.old) }
    {
        let alloc = self.alloc;
        self.tenants[tenant as usize].add(alloc, files, blocks)?;
        Ok(())
    }

    // The file's copy.
    fn entry(&self, file: FileId) -> &Entry
        requires { IsSome (file_limit self.now file) }
        ensures { result.now ≡ copy_at self.now file }
    {
        self.tenants[file.tenant as usize].entry(file.volume, file.file)
    }

    // Whether the tag is greater than that of the file's copy.
    #[tactic(auto, using(crate::proofs::Changed::lt_is_less))]
    fn is_newer(&self, file: FileId, tag: Tag) -> bool
        requires { IsSome (file_limit self.now file) }
        ensures { result ≡ is_less (copy_at self.now file).tag tag }
    {
        self.tag(file) < tag
    }

    /// How many bytes the file may hold: [`gq_tag::BLOCK_BYTES`] for each of its blocks. None where the file is not there.
    pub fn limit(&self, file: FileId) -> Option<u64>
        ensures { result ≡ file_limit self.now file }
    {
        self.tenants
            .get(file.tenant as usize)?
            .limit(file.volume, file.file)
    }

    /// The number of bytes of the file's copy.
    pub fn len(&self, file: FileId) -> usize
        requires { IsSome (file_limit self.now file) }
        ensures { result ≡ length (copy_at self.now file).bytes }
    {
        self.entry(file).len()
    }

    /// The tag of the file's copy.
    pub fn tag(&self, file: FileId) -> Tag
        requires { IsSome (file_limit self.now file) }
        ensures { result ≡ (copy_at self.now file).tag }
    {
        self.entry(file).tag()
    }

    /// Writes the content of the file's copy into `out`, which has as many bytes.
    pub fn get(&self, file: FileId, out: &mut [u8])
        requires there { IsSome (file_limit self.now file) }
        requires long { length out.old ≡ length (copy_at self.now file).bytes }
        ensures { out.new ≡ (copy_at self.now file).bytes }
    {
        self.entry(file).read(out);
    }

    /// Reads the content of the file's copy into `out`, in place of what was there, and answers its tag.
    ///
    /// `OutOfMemory` is want of memory, for a content that is longer than what `out` has room for: `out` may then have
    /// anything.
    #[inline(always)]
    pub fn read(&self, file: FileId, out: &mut Vec<u8>) -> Result<Tag, OutOfMemory>
        requires { IsSome (file_limit self.now file) }
        ensures content { OnOk result (out.new.items ≡ (copy_at self.now file).bytes) }
        ensures tag { IfOk result (λ tag. tag ≡ (copy_at self.now file).tag) }
    {
        let entry = self.entry(file);
        out.grow_to(entry.len(), 0)?;
        entry.read(out.as_mut_slice());
        Ok(entry.tag())
    }

    /// A number that was left with the file, 0 at first: where somebody else keeps an equal copy, perhaps. It is a guess,
    /// which no contract sees.
    #[inline]
    pub fn hint(&self, file: FileId) -> u32
        requires { IsSome (file_limit self.now file) }
    {
        self.entry(file).hint()
    }

    /// Leaves that number with the file. Nothing else changes.
    #[inline]
    pub fn leave_hint(&mut self, file: FileId, hint: u32)
        requires { IsSome (file_limit self.old file) }
        ensures { self.new ≡ self.old }
    {
        let _blocks = self.blocks;
        self.tenants[file.tenant as usize].leave_hint(file.volume, file.file, hint);
    }

    /// The number of blocks that no copy of any tenant takes.
    pub fn free(&self) -> usize
        ensures free { result ≡ blocks_free self.now }
        ensures within { blocks_taken self.now ≤ self.now.blocks }
    {
        let _blocks = self.blocks;
        self.pool.free()
    }

    /// Puts a copy of the file where its tag is greater than that of the file's copy, so that the file's copy is the
    /// greatest that was put; one that comes late, or twice, changes nothing. (So do the servers of Attiya, Bar-Noy and
    /// Dolev, Sharing memory robustly in message-passing systems, JACM 42(1), 1995.) The content has at most
    /// [`gq_tag::BLOCK_BYTES`] bytes for each block of the file. It takes no memory and always finds the blocks.
    #[inline(always)]
    pub fn put(&mut self, file: FileId, tag: Tag, bytes: &[u8]) -> Put
        requires limit { IfSome (file_limit self.old file) (λ limit. length bytes.now ≤ limit) }
        requires there { IsSome (file_limit self.old file) }
        ensures kept { (result ≡ Put.Kept) ↔ IsTrue (is_less (copy_at self.old file).tag tag) }
        ensures copy { copy_at self.new file
            ≡ newer_of (copy_at self.old file) (record { tag = tag; bytes = bytes.now }) }
        ensures others { (other : FileId) → other ≢ file → copy_at self.new other ≡ copy_at self.old other }
        ensures accounts { store_accounts self.new ≡ store_accounts self.old }
        ensures blocks { self.new.blocks ≡ self.old.blocks }
        ensures older { result ≡ Put.Older → self.new ≡ self.old }
    {
        if self.is_newer(file, tag) {
            self.replace(file, tag, bytes);
            Put::Kept
        } else {
            Put::Older
        }
    }

    // Puts the copy in the place of the file's.
    #[inline(always)]
    fn replace(&mut self, file: FileId, tag: Tag, bytes: &[u8])
        requires limit { IfSome (file_limit self.old file) (λ limit. length bytes.now ≤ limit) }
        requires there { IsSome (file_limit self.old file) }
        ensures { self.new ≡ record self.old {
          tenants = tenants_with self.old.tenants file (record { tag = tag; bytes = bytes.now });
        } }
    {
        let _blocks = self.blocks;
        self.tenants[file.tenant as usize].put(&mut self.pool, file.volume, file.file, tag, bytes);
    }

    // The file's copy, its content in memory of its own.
    fn copy(&self, file: FileId) -> Result<StoredCopy, OutOfMemory>
        requires { IsSome (file_limit self.now file) }
        ensures { IfOk result (λ copy. copy ≡ copy_at self.now file) }
    {
        let entry = self.entry(file);
        let mut content = filled(self.alloc, 0, entry.len())?;
        entry.read(content.as_mut_slice());
        Ok(StoredCopy {
            tag: entry.tag(),
            bytes: bytes_of(content)?,
        })
    }

    /// Answers a message to the server, an ask or a store, in the same round: an ask by the file's copy, a store by
    /// stored, after a `put` of its copy. Memory is taken for the copy alone that an ask is given.
    ///
    /// The causes of a refusal are tested in the order of [`ServeRefused`], and a refusal changes nothing.
    pub fn serve(&mut self, message: &Message) -> Result<Message, ServeRefused>
        requires { IsTrue (to_server message.now.body) }
        ensures served { OnOk result (serve_fault self.old message.now ≡ None) }
        ensures refused { IfErr result (λ fault. fault ≢ ServeRefused.Memory tt
            → serve_fault self.old message.now ≡ Some fault) }
        ensures memory { IsErrOf result (ServeRefused.Memory tt) → serve_fault self.old message.now ≡ None }
        ensures memory_for_asks { IsErrOf result (ServeRefused.Memory tt) → message.now.body ≡ Body.Ask }
        ensures reply { IfOk result (λ reply. reply ≡ server_reply (copy_at self.old message.now.file) message.now) }
        ensures held { OnOk result (copy_at self.new message.now.file
            ≡ held_after (copy_at self.old message.now.file) message.now.body) }
        ensures others { (other : FileId) → other ≢ message.now.file → copy_at self.new other ≡ copy_at self.old other }
        ensures accounts { store_accounts self.new ≡ store_accounts self.old }
        ensures blocks { self.new.blocks ≡ self.old.blocks }
        ensures same { OnErr result (self.new ≡ self.old) }
    {
        let file = message.file;
        let Some(limit) = self.limit(file) else {
            return Err(ServeRefused::File);
        };
        let body = match &message.body {
            Body::Store(copy) => {
                if copy.bytes.len() as u64 > limit {
                    return Err(ServeRefused::Long);
                }
                self.put(file, copy.tag, copy.bytes.as_slice());
                Body::Stored
            }
            _ => match self.copy(file) {
                Ok(copy) => Body::Copy(copy),
                Err(refused) => return Err(ServeRefused::Memory(refused)),
            },
        };
        Ok(reply(message, body))
    }

    /// Loses all copies, as a server whose disk is lost: each file that is there has its first copy again, tag (0,0) and empty,
    /// and hint 0. The tenants, their shares and their volumes stay, and all blocks are free.
    pub fn lose(&mut self)
        ensures lost { self.new ≡ lost_copies self.old }
        ensures copies { (file : FileId) → copy_at self.new file ≡ first_copy }
        ensures accounts { store_accounts self.new ≡ store_accounts self.old }
        ensures blocks { self.new.blocks ≡ self.old.blocks }
        ensures free { blocks_free self.new ≡ self.new.blocks }
    {
        let _blocks = self.blocks;
        lose_copies(&mut self.pool, self.tenants.as_mut_slice());
    }

    /// Takes the copies of all files from a peer, another server of the same column, in place of what was there: this store
    /// is then equal to the peer's, and the peer's is as it was. Both have the same accounts, and as many blocks. Each hint
    /// is 0 then. It takes no memory, and always finds the blocks.
    pub fn take_from(&mut self, peer: &ServerStore)
        requires accounts { store_accounts self.old ≡ store_accounts peer.now }
        requires blocks { self.old.blocks ≡ peer.now.blocks }
        ensures { self.new ≡ peer.now }
    {
        self.lose();
        let _blocks = self.blocks;
        take_copies(
            &mut self.pool,
            self.tenants.as_mut_slice(),
            peer.tenants.as_slice(),
        );
    }

    /// Forgets all tenants with their volumes: their blocks are free then, and what other memory these took is given back.
    /// Who lets many stores go clears all of them before the first: the C library joins all blocks that were given back, one by
    /// one, as soon as something large is given back behind them.
    pub fn clear(&mut self)
        ensures { self.new ≡ record { blocks = self.old.blocks; tenants = [] } }
    {
        while let Some(tenant) = self.tenants.pop() {
            tenant.spend(&mut self.pool);
        }
    }

    /// Gives all memory back, as letting the store go does.
    pub fn close(self) {
        drop(self);
    }
}
