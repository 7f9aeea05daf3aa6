//! Volumes of the tenants, each inside its tenant's share of every server's blocks.

ghost use Rattle.std.specs.Prelude.{◌≡◌, ◌<◌, ◌≤◌, ◌*◌, ◌+◌, [], None, Some, IfOk, IfErr, OnOk, OnErr, IfSome, IfNone, length, map, slice_set, true};
ghost use Rattle.gq_desk.specs.Volumes.{Account as Holding, open_fault, IsRefusedFor, with_volume, account_at, blocks_of, reserved, free_of, is_sized, limit_in, limit_of, new_account};
ghost use Rattle.std.specs.List.{list_all};

use crate::limits::{MOST_FILE_BLOCKS, MOST_VOLUMES};
use crate::plans::{Plan, TenantRow};
use gq_memory::{GrowVec, OutOfMemory};
use gq_tag::{BLOCK_BYTES, FileId, MOST_FILES};
use std::alloc::Global;
use std::marker::Model;
use thiserror::Error;

/// A volume: so many files of so many blocks each.
#[derive(Clone, Copy, Debug, PartialEq, Eq)]
pub struct VolumeRow {
    pub files: u32,
    pub blocks: u32,
}

/// Volumes in order.
#[derive(Debug, Drop)]
pub struct VolumeRows {
    pub items: Vec<VolumeRow>,
}

impl Model for VolumeRows {
    ghost use Rattle.std.specs.Prelude.{List};
    ghost use Rattle.gq_desk.specs.declared.volumes.VolumeRow.{VolumeRow};

    ghost Value = { List VolumeRow };

    ghost view = { λ v. v.items.items };
}

/// Why a volume is not opened. The causes are tested in this order.
#[derive(Debug, Drop, Error)]
pub enum OpenRefused {
    /// The files are not 1 to [`MOST_FILES`], or the blocks of a file not 1 to the most of the tenant's row.
    #[error("size")]
    Size,
    /// The tenant has as many volumes already as its row says.
    #[error("volumes")]
    Volumes,
    /// The volume's blocks are more than the `free` blocks that are left of the share.
    #[error("share {free}")]
    Share { free: u32 },
    /// Memory is wanting.
    #[error("out of memory")]
    Memory(OutOfMemory),
}

// A tenant's volumes, the most blocks of its files, the most volumes that it may open, and how many blocks of its share no volume takes.
#[derive(Drop)]
struct Account {
    share: u32,
    most_blocks: u32,
    most_volumes: u32,
    free: u32,
    volumes: Vec<VolumeRow>,
}

impl Model for Account {
    ghost use Rattle.std.specs.Prelude.{◌≡◌, ◌+◌, ◌≤◌, length, true};
    ghost use Rattle.std.specs.List.{list_all};
    ghost use Rattle.gq_desk.specs.declared.limits.TheConstants.{MOST_FILE_BLOCKS, MOST_VOLUMES};
    ghost use Rattle.gq_desk.specs.Volumes.{Account as Holding, reserved, is_sized};

    ghost Value = { Holding };

    ghost view = { λ a. record { share = a.share; most_blocks = a.most_blocks; most_volumes = a.most_volumes; volumes = a.volumes.items } };

    ghost invariant = { λ a. (a.free + reserved a.volumes.items ≡ a.share) × (length a.volumes.items ≤ MOST_VOLUMES) × (a.most_blocks ≤ MOST_FILE_BLOCKS) × (a.most_volumes ≤ MOST_VOLUMES) × (list_all (is_sized MOST_FILE_BLOCKS) a.volumes.items ≡ true) };
}

impl Account {
    // All of the share is free.
    fn new(alloc: Global, row: &TenantRow) -> Account
        requires blocks { row.now.most_blocks ≤ MOST_FILE_BLOCKS }
        requires volumes { row.now.most_volumes ≤ MOST_VOLUMES }
        ensures { result ≡ new_account row.now }
    {
        Account {
            share: row.share,
            most_blocks: row.most_blocks,
            most_volumes: row.most_volumes,
            free: row.share,
            volumes: Vec::new(alloc),
        }
    }

    // The first cause why the volume is not opened.
    fn fault(&self, volume: VolumeRow) -> Option<OpenRefused>
        ensures fault { IfSome result (IsRefusedFor (open_fault self.now volume)) }
        ensures none { IfNone result (open_fault self.now volume ≡ None) }
        ensures fits { IfNone result (volume.files * volume.blocks ≤ free_of self.now) }
        ensures few { IfNone result (length self.now.volumes < MOST_VOLUMES) }
    {
        if volume.files < 1
            || volume.files > MOST_FILES
            || volume.blocks < 1
            || volume.blocks > self.most_blocks
        {
            return Some(OpenRefused::Size);
        }
        if self.volumes.len() >= self.most_volumes as usize {
            return Some(OpenRefused::Volumes);
        }
        if self.free < volume.files * volume.blocks {
            return Some(OpenRefused::Share { free: self.free });
        }
        None
    }

    // Adds a volume that no cause refuses, and answers its number.
    fn open(&mut self, volume: VolumeRow) -> Result<u32, OutOfMemory>
        requires { open_fault self.old volume ≡ None }
        ensures number { IfOk result (λ number. number ≡ length self.old.volumes) }
        ensures few { IfOk result (λ number. number < MOST_VOLUMES) }
        ensures opened { OnOk result (self.new ≡ with_volume volume self.old) }
        ensures same { OnErr result (self.new ≡ self.old) }
    {
        let number = self.volumes.len();
        self.volumes.grow(volume)?;
        self.free -= volume.files * volume.blocks;
        Ok(number as u32)
    }
}

/// The volumes of all tenants. Of each tenant they take no more blocks than its share, whatever the others open.
#[derive(Drop)]
pub struct Desk {
    accounts: Vec<Account>,
}

impl Model for Desk {
    ghost use Rattle.std.specs.Prelude.{List};
    ghost use Rattle.gq_desk.specs.Volumes.{Account as Holding};

    ghost Value = { List Holding };

    ghost view = { λ d. d.accounts.items };
}

impl Desk {
    /// The desk of the plan's tenants: no volume is there, and each share is free. `OutOfMemory` is want of memory.
    pub fn new(alloc: Global, plan: &Plan) -> Result<Desk, OutOfMemory>
        ensures { IfOk result (λ d. d ≡ map new_account plan.now.rows) }
    {
        let mut accounts = Vec::new(alloc);
        for row in plan.rows() {
            accounts.grow(Account::new(alloc, row))?;
        }
        Ok(Desk { accounts })
    }

    /// Opens the tenant's next volume, of so many files of so many blocks each, and answers its number, from 0. The
    /// causes of a refusal are tested in the order of [`OpenRefused`], and a refusal changes nothing.
    pub fn open_volume(&mut self, tenant: u8, files: u32, blocks: u32) -> Result<u32, OpenRefused>
        requires { tenant < length self.old }
        ensures number { IfOk result (λ number. number ≡ length (account_at self.old tenant).volumes) }
        ensures few { IfOk result (λ number. number < MOST_VOLUMES) }
        ensures sound { OnOk result (open_fault (account_at self.old tenant) (record { files = files; blocks = blocks }) ≡ None) }
        ensures opened { OnOk result (self.new ≡ slice_set self.old tenant (with_volume (record { files = files; blocks = blocks }) (account_at self.old tenant))) }
        ensures refused { IfErr result (IsRefusedFor (open_fault (account_at self.old tenant) (record { files = files; blocks = blocks }))) }
        ensures same { OnErr result (self.new ≡ self.old) }
    {
        let volume = VolumeRow { files, blocks };
        let account = &mut self.accounts[tenant as usize];
        if let Some(fault) = account.fault(volume) {
            return Err(fault);
        }
        match account.open(volume) {
            Ok(number) => Ok(number),
            Err(refused) => Err(OpenRefused::Memory(refused)),
        }
    }

    /// The tenant's volumes in order.
    pub fn volumes(&self, tenant: u8) -> &[VolumeRow]
        requires { tenant < length self.now }
        ensures volumes { result.now ≡ (account_at self.now tenant).volumes }
        ensures within { reserved result.now ≤ (account_at self.now tenant).share }
        ensures few { length result.now ≤ MOST_VOLUMES }
        ensures sized { list_all (is_sized MOST_FILE_BLOCKS) result.now ≡ true }
    {
        let account = &self.accounts[tenant as usize];
        account.volumes.as_slice()
    }

    /// The blocks of the tenant's share that no volume takes.
    pub fn free(&self, tenant: u8) -> u32
        requires { tenant < length self.now }
        ensures { result ≡ free_of (account_at self.now tenant) }
    {
        let account = &self.accounts[tenant as usize];
        account.free
    }

    /// The bytes that the file may hold, or none where the file is not there.
    pub fn limit(&self, id: FileId) -> Option<u32>
        ensures { result ≡ limit_of self.now id }
    {
        let account = self.accounts.get(id.tenant as usize)?;
        let volume = account.volumes.get(id.volume as usize)?;
        if id.file < volume.files {
            Some(BLOCK_BYTES as u32 * volume.blocks)
        } else {
            None
        }
    }
}
