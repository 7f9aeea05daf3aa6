//! Volumes of files, and the tenants that have them.
ghost use Rattle.std.specs.Prelude.{◌≡◌, ℕ, ◌+◌, ◌^◌, ◌<◌, ◌≤◌, [], ◌∷◌, ◌++◌, length, replicate, vec_len, vec_capacity, IfOk, OnOk, OnErr, slice_get};
ghost use Rattle.std.specs.Option.{option_and_then};
ghost use Rattle.gq_desk.specs.Volumes.{limit_in};
ghost use Rattle.gq_pool.specs.Blocks.{blocks_for};
ghost use Rattle.gq_tag.specs.Tag.{first_copy};
ghost use Rattle.gq_store.specs.Copies.{volume_size, copies_account, volume_copy, volume_in, taken, volume_taken, tenant_taken, new_volume, new_tenant, lost_volume, lost_tenant, volume_with, tenant_with};

use crate::entry::Entry;
use gq_desk::TenantRow;
use gq_memory::{OutOfMemory, RoomInVec, room_for};
use gq_pool::Pool;
use gq_tag::{BLOCK_BYTES, Tag};
use std::alloc::Global;
use std::marker::Model;

/// The files of a volume in order, each of at most so many blocks.
pub(crate) struct Volume {
    blocks: u32,
    files: Vec<Entry>,
}

impl Model for Volume {
    ghost use Rattle.gq_store.specs.Copies.{VolumeCopies};

    ghost Value = { VolumeCopies };

    ghost view = { λ v. record { blocks = v.blocks; copies = v.files.items } };
}

/// The volumes of a tenant in order, its share of the server's blocks, the most blocks of its files, and how many volumes it may have.
pub(crate) struct Tenant {
    share: u32,
    most_blocks: u32,
    most_volumes: u32,
    volumes: Vec<Volume>,
}

impl Model for Tenant {
    ghost use Rattle.gq_store.specs.Copies.{TenantCopies};

    ghost Value = { TenantCopies };

    ghost view = { λ t. record { share = t.share; most_blocks = t.most_blocks; most_volumes = t.most_volumes; volumes = t.volumes.items } };
}

impl Volume {
    // A volume whose files have their first copies.
    fn new(alloc: Global, files: u32, blocks: u32) -> Result<Volume, OutOfMemory>
        ensures { IfOk result (λ volume. volume ≡ new_volume files blocks) }
    {
        let mut entries = room_for(alloc, files as usize)?;
        for _ in 0..files {
            entries.push_reserved(Entry::first());
        }
        Ok(Volume {
            blocks,
            files: entries,
        })
    }

    // The bytes that the file may hold, where it is there.
    fn limit(&self, file: u32) -> Option<u64>
        ensures { result ≡ limit_in file (volume_size self.now) }
    {
        if (file as usize) < self.files.len() {
            Some(BLOCK_BYTES as u64 * u64::from(self.blocks))
        } else {
            None
        }
    }

    // The file's copy.
    fn entry(&self, file: u32) -> &Entry
        requires { file < length self.now.copies }
        ensures { result.now ≡ volume_copy self.now file }
    {
        &self.files[file as usize]
    }

    // Puts another copy in the file's place.
    #[inline(always)]
    fn put(&mut self, pool: &mut Pool, file: u32, tag: Tag, bytes: &[u8])
        requires there { file < length self.old.copies }
        requires fits { pool.old + taken (volume_copy self.old file) < 2 ^ 64 }
        requires room { blocks_for (length bytes.now) ≤ pool.old + taken (volume_copy self.old file) }
        ensures copy { self.new ≡ volume_with self.old file (record { tag = tag; bytes = bytes.now }) }
        ensures free { pool.new + blocks_for (length bytes.now) ≡ pool.old + taken (volume_copy self.old file) }
    {
        self.files[file as usize].put(pool, tag, bytes);
    }

    // Leaves a hint with the file.
    #[inline]
    fn leave_hint(&mut self, file: u32, hint: u32)
        requires { file < length self.old.copies }
        ensures { self.new ≡ self.old }
    {
        self.files[file as usize].leave_hint(hint);
    }

    // Loses the copies of all files, and gives their blocks back.
    fn lose(&mut self, pool: &mut Pool)
        requires { pool.old + volume_taken self.old < 2 ^ 64 }
        ensures copies { self.new ≡ lost_volume self.old }
        ensures free { pool.new ≡ pool.old + volume_taken self.old }
    {
        for entry in self.files.iter_mut() {
            entry.lose(pool);
        }
    }

    // Takes the copies of all files from the peer's volume of the same size.
    fn take_from(&mut self, pool: &mut Pool, peer: &Volume)
        requires size { volume_size self.old ≡ volume_size peer.now }
        requires fits { pool.old + volume_taken self.old < 2 ^ 64 }
        requires room { volume_taken peer.now ≤ pool.old }
        ensures copies { self.new ≡ peer.now }
        ensures free { pool.new + volume_taken peer.now ≡ pool.old + volume_taken self.old }
    {
        for (file, entry) in self.files.iter_mut().enumerate() {
            entry.take_from(pool, &peer.files[file]);
        }
    }

    // Gives the blocks of all files back.
    fn spend(self, pool: &mut Pool)
        requires { pool.old + volume_taken self < 2 ^ 64 }
        ensures { pool.new ≡ pool.old + volume_taken self }
    {
        let Volume {
            blocks: _,
            mut files,
        } = self;
        while let Some(entry) = files.pop() {
            entry.spend(pool);
        }
        files.destroy_empty();
    }
}

impl Tenant {
    // No volume is there.
    pub(crate) fn new(alloc: Global, row: &TenantRow) -> Tenant
        ensures { result ≡ new_tenant row.now }
    {
        Tenant {
            share: row.share,
            most_blocks: row.most_blocks,
            most_volumes: row.most_volumes,
            volumes: Vec::new(alloc),
        }
    }

    // Adds a volume whose files have their first copies.
    pub(crate) fn add(&mut self, alloc: Global, files: u32, blocks: u32) -> Result<(), OutOfMemory>
        ensures added { OnOk result (self.new ≡ record self.old { volumes = self.old.volumes ++ new_volume files blocks ∷ [] }) }
        ensures same { OnErr result (self.new ≡ self.old) }
    {
        self.volumes.make_room(1)?;
        let volume = Volume::new(alloc, files, blocks)?;
        self.volumes.push_reserved(volume);
        Ok(())
    }

    // The bytes that the file may hold, where it is there.
    pub(crate) fn limit(&self, volume: u32, file: u32) -> Option<u64>
        ensures { result ≡ option_and_then (limit_in file) (slice_get (copies_account self.now).volumes volume) }
    {
        self.volumes.get(volume as usize)?.limit(file)
    }

    // The file's copy.
    pub(crate) fn entry(&self, volume: u32, file: u32) -> &Entry
        requires volume { volume < length self.now.volumes }
        requires file { file < length (volume_in self.now volume).copies }
        ensures { result.now ≡ volume_copy (volume_in self.now volume) file }
    {
        self.volumes[volume as usize].entry(file)
    }

    // Puts another copy in the file's place.
    #[inline(always)]
    pub(crate) fn put(&mut self, pool: &mut Pool, volume: u32, file: u32, tag: Tag, bytes: &[u8])
        requires volume { volume < length self.old.volumes }
        requires file { file < length (volume_in self.old volume).copies }
        requires fits { pool.old + taken (volume_copy (volume_in self.old volume) file) < 2 ^ 64 }
        requires room { blocks_for (length bytes.now) ≤ pool.old + taken (volume_copy (volume_in self.old volume) file) }
        ensures copy { self.new ≡ tenant_with self.old volume file (record { tag = tag; bytes = bytes.now }) }
        ensures free { pool.new + blocks_for (length bytes.now) ≡ pool.old + taken (volume_copy (volume_in self.old volume) file) }
    {
        self.volumes[volume as usize].put(pool, file, tag, bytes);
    }

    // Leaves a hint with the file.
    #[inline]
    pub(crate) fn leave_hint(&mut self, volume: u32, file: u32, hint: u32)
        requires volume { volume < length self.old.volumes }
        requires file { file < length (volume_in self.old volume).copies }
        ensures { self.new ≡ self.old }
    {
        self.volumes[volume as usize].leave_hint(file, hint);
    }

    // Loses the copies of all volumes, and gives their blocks back.
    pub(crate) fn lose(&mut self, pool: &mut Pool)
        requires { pool.old + tenant_taken self.old < 2 ^ 64 }
        ensures copies { self.new ≡ lost_tenant self.old }
        ensures free { pool.new ≡ pool.old + tenant_taken self.old }
    {
        for volume in self.volumes.iter_mut() {
            volume.lose(pool);
        }
    }

    // Takes the copies of all volumes from the peer's tenant of the same account.
    pub(crate) fn take_from(&mut self, pool: &mut Pool, peer: &Tenant)
        requires account { copies_account self.old ≡ copies_account peer.now }
        requires fits { pool.old + tenant_taken self.old < 2 ^ 64 }
        requires room { tenant_taken peer.now ≤ pool.old }
        ensures copies { self.new ≡ peer.now }
        ensures free { pool.new + tenant_taken peer.now ≡ pool.old + tenant_taken self.old }
    {
        for (number, volume) in self.volumes.iter_mut().enumerate() {
            volume.take_from(pool, &peer.volumes[number]);
        }
    }

    // Gives the blocks of all volumes back.
    pub(crate) fn spend(self, pool: &mut Pool)
        requires { pool.old + tenant_taken self < 2 ^ 64 }
        ensures { pool.new ≡ pool.old + tenant_taken self }
    {
        let Tenant {
            share: _,
            most_blocks: _,
            most_volumes: _,
            mut volumes,
        } = self;
        while let Some(volume) = volumes.pop() {
            volume.spend(pool);
        }
        volumes.destroy_empty();
    }
}
