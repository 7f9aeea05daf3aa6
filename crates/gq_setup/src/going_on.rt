//! What of an older setup a newer one does not keep.

ghost use Rattle.std.specs.Prelude.{◌≡◌, ◌≤◌, ◌<◌, ◌||◌, ◌==◌, ℕ, List, nat_le, false, true, length, is_none, IfNone, IfSome};
ghost use Rattle.std.specs.List.{All};
ghost use Rattle.gq_setup.specs.GoingOn.{come_first, losses_go_on, gone_go_on, same_place, same_name, same_tenant, row_goes_on, rooms_go_on, same_servers, same_volume, account_goes_on, accounts_left, volumes_left};
ghost use Rattle.gq_setup.specs.Setups.{is_gone, is_gone_at, kib_of};
ghost use Rattle.gq_setup.specs.declared.going_on.NotKept.TheVariants.{Sessions};
ghost use Rattle.gq_setup.specs.NotKept.{is_kept_at, TellsServers, TellsGone, TellsRoom, TellsRow, TellsRowAt, TellsLoss, TellsVolume};

use crate::openings::{ChunkRoom, is_gone, kib_of};
use gq_desk::{Desk, Name, Plan, TenantRow, VolumeRow};
use std::fmt;
use std::fmt::{Display, Formatter, Write};

/// What of an older setup a newer one does not keep. Places and indices are counted from 0.
#[derive(Clone, Copy, Drop)]
pub enum NotKept {
    /// The grid, which had so many rows and columns.
    Grid {
        rows: usize,
        cols: usize,
    },
    /// The blocks of each server: there were so many, and there are fewer.
    Blocks {
        before: u32,
    },
    /// The loss of this index, which was at this place.
    Loss {
        index: usize,
        place: u8,
    },
    /// The line of this index that tells who is gone: it told this name.
    Gone {
        index: usize,
        name: Name,
    },
    /// The tenant of this place: it has another name, or none, and no line tells that it is gone.
    Tenant {
        place: usize,
    },
    /// The sessions of the tenant of this place: there were so many, and there are more or fewer.
    Sessions {
        place: usize,
        before: u32,
    },
    /// The share of the tenant of this place: it had so many blocks, and has fewer.
    Share {
        place: usize,
        before: u32,
    },
    /// The volume of this index, of the tenant of this place: it had so many files of so many blocks each.
    Volume {
        tenant: usize,
        index: usize,
        files: u32,
        blocks: u32,
    },
    /// The room for chunks of the tenant of this place: it had so many KiB, and has fewer.
    Chunks {
        place: usize,
        before: u32,
    },
}

// The line of a plan's text that has the tenant of this place.
fn line_of(place: usize) -> usize {
    place.saturating_add(3)
}

impl Display for NotKept {
    fn fmt<W: Write>(&self, f: &mut Formatter<W>) -> fmt::Result {
        match self {
            NotKept::Grid { rows, cols } => write!(f, "line 1: the grid was {rows} by {cols}"),
            NotKept::Blocks { before } => {
                write!(
                    f,
                    "line 2: each server had {before} blocks, and may not have fewer"
                )
            }
            NotKept::Loss { index, place } => {
                let number = index.saturating_add(1);
                write!(
                    f,
                    "the line `replace` number {number} was `replace {place}`"
                )
            }
            NotKept::Gone { index, name } => {
                let number = index.saturating_add(1);
                write!(f, "the line `gone` number {number} was `gone ")?;
                write_name(f, name)?;
                f.write_str("`")
            }
            NotKept::Tenant { place } => {
                let line = line_of(*place);
                write!(f, "line {line}: another tenant stood here")
            }
            NotKept::Sessions { place, before } => {
                let line = line_of(*place);
                write!(
                    f,
                    "line {line}: the tenant had {before} sessions, and may not have more or fewer"
                )
            }
            NotKept::Share { place, before } => {
                let line = line_of(*place);
                write!(
                    f,
                    "line {line}: the tenant's share was {before} blocks, and may not be smaller"
                )
            }
            NotKept::Volume {
                tenant,
                index,
                files,
                blocks,
            } => {
                let line = line_of(*tenant);
                write!(
                    f,
                    "line {line}: volume {index} of the tenant was `open {files} {blocks}`"
                )
            }
            NotKept::Chunks { place, before } => {
                let line = line_of(*place);
                write!(
                    f,
                    "line {line}: the tenant had {before} KiB of chunks, and may not have fewer"
                )
            }
        }
    }
}

// Writes the letters of a name.
fn write_name<W: Write>(f: &mut Formatter<W>, name: &Name) -> fmt::Result {
    for letter in name.as_bytes() {
        f.write_char(char::from(*letter))?;
    }
    Ok(())
}

// What the servers of two plans differ in, or in which of them they have fewer blocks.
pub(crate) fn servers_not_kept(old: &Plan, new: &Plan) -> Option<NotKept>
    ensures kept { is_none result ≡ same_servers old.now new.now }
    ensures told { IfSome result (TellsServers old.now new.now) }
{
    let (before, after) = (old.grid(), new.grid());
    if before.rows() != after.rows() || before.cols() != after.cols() {
        return Some(NotKept::Grid {
            rows: before.rows(),
            cols: before.cols(),
        });
    }
    if new.blocks() < old.blocks() {
        return Some(NotKept::Blocks {
            before: old.blocks(),
        });
    }
    None
}

// What of its sessions the place does not keep.
fn sessions_not_kept(place: usize, old: &TenantRow, new: &TenantRow) -> Option<NotKept>
    ensures kept { is_none result ≡ (old.now.sessions == new.now.sessions) }
    ensures told { IfSome result (λ what. (what ≡ Sessions place old.now.sessions) × ((old.now.sessions == new.now.sessions) ≡ false)) }
{
    if old.sessions != new.sessions {
        return Some(NotKept::Sessions {
            place,
            before: old.sessions,
        });
    }
    None
}

// What of its row the tenant at this place does not keep, which is not gone.
fn tenant_not_kept(place: usize, old: &TenantRow, new: &TenantRow) -> Option<NotKept>
    ensures kept { is_none result ≡ same_tenant old.now new.now }
    ensures told { (gone : List (List ℕ)) → is_gone gone old.now.name ≡ false → IfSome result (TellsRow gone place old.now new.now) }
{
    if old.name.as_bytes() != new.name.as_bytes() {
        return Some(NotKept::Tenant { place });
    }
    if let Some(what) = sessions_not_kept(place, old, new) {
        return Some(what);
    }
    if new.share < old.share {
        return Some(NotKept::Share {
            place,
            before: old.share,
        });
    }
    None
}

// What of its row the tenant at this place does not keep, where these are gone.
fn row_not_kept(gone: &[Name], place: usize, old: &TenantRow, new: &TenantRow) -> Option<NotKept>
    ensures kept { is_none result ≡ row_goes_on gone.now old.now new.now }
    ensures told { IfSome result (TellsRow gone.now place old.now new.now) }
{
    if is_gone(gone, old.name.as_bytes()) {
        sessions_not_kept(place, old, new)
    } else {
        tenant_not_kept(place, old, new)
    }
}

// The first of the old rows that is not kept, and what of it, where these are gone.
pub(crate) fn rows_not_kept(
    gone: &[Name],
    olds: &[TenantRow],
    news: &[TenantRow],
) -> Option<NotKept>
    ensures kept { is_none result ≡ come_first (row_goes_on gone.now) olds.now news.now }
    ensures told { IfSome result (TellsRowAt gone.now olds.now news.now) }
{
    for (place, old) in olds.iter().enumerate() {
        if place >= news.len() {
            return Some(NotKept::Tenant { place });
        }
        if let Some(what) = row_not_kept(gone, place, old, &news[place]) {
            return Some(what);
        }
    }
    None
}

// The first of those who were gone that is not told at its place.
pub(crate) fn gone_not_kept(olds: &[Name], news: &[Name]) -> Option<NotKept>
    ensures kept { is_none result ≡ gone_go_on olds.now news.now }
    ensures told { IfSome result (TellsGone olds.now news.now) }
{
    for (index, old) in olds.iter().enumerate() {
        if index >= news.len() || !news[index].is(old.as_bytes()) {
            return Some(NotKept::Gone { index, name: *old });
        }
    }
    None
}

// The first of the old losses that is not kept.
pub(crate) fn losses_not_kept(olds: &[u8], news: &[u8]) -> Option<NotKept>
    ensures kept { is_none result ≡ losses_go_on olds.now news.now }
    ensures told { IfSome result (TellsLoss olds.now news.now) }
{
    for (index, old) in olds.iter().enumerate() {
        if index >= news.len() || *old != news[index] {
            return Some(NotKept::Loss { index, place: *old });
        }
    }
    None
}

// Whether the volumes are alike.
fn same_volume(old: VolumeRow, new: VolumeRow) -> bool
    ensures { result ≡ same_volume old new }
{
    old.files == new.files && old.blocks == new.blocks
}

// The index of the first of the old volumes that is not kept.
fn volume_not_kept(olds: &[VolumeRow], news: &[VolumeRow]) -> Option<usize>
    ensures kept { is_none result ≡ come_first same_volume olds.now news.now }
    ensures within { IfSome result (λ index. index < length olds.now) }
    ensures told { IfSome result (λ index. is_kept_at same_volume olds.now news.now index ≡ false) }
{
    for (index, old) in olds.iter().enumerate() {
        if index >= news.len() {
            return Some(index);
        }
        if !same_volume(*old, news[index]) {
            return Some(index);
        }
    }
    None
}

// The index of the first of the old volumes of this tenant that is not kept, where these are gone.
fn account_not_kept(
    gone: &[Name],
    row: &TenantRow,
    olds: &[VolumeRow],
    news: &[VolumeRow],
) -> Option<usize>
    ensures kept { is_none result ≡ come_first same_volume (volumes_left gone.now row.now olds.now) news.now }
    ensures within { IfSome result (λ index. index < length olds.now) }
    ensures stays { IfSome result (λ index. volumes_left gone.now row.now olds.now ≡ olds.now) }
    ensures told { IfSome result (λ index. is_kept_at same_volume olds.now news.now index ≡ false) }
{
    if is_gone(gone, row.name.as_bytes()) {
        return None;
    }
    volume_not_kept(olds, news)
}

// The first of the old volumes that is not kept, of the tenants of these rows, where these are gone.
pub(crate) fn accounts_not_kept(
    gone: &[Name],
    rows: &[TenantRow],
    old: &Desk,
    new: &Desk,
) -> Option<NotKept>
    requires olds { length rows.now ≡ length old.now }
    requires news { length rows.now ≤ length new.now }
    requires few { length rows.now ≤ 64 }
    ensures kept { is_none result ≡ come_first account_goes_on (accounts_left gone.now rows.now old.now) new.now }
    ensures told { IfSome result (TellsVolume (accounts_left gone.now rows.now old.now) new.now) }
{
    for tenant in 0..rows.len() {
        let volumes = old.volumes(tenant as u8);
        if let Some(index) = account_not_kept(
            gone,
            &rows[tenant],
            volumes,
            new.volumes(tenant as u8),
        ) {
            let VolumeRow { files, blocks } = volumes[index];
            return Some(NotKept::Volume {
                tenant,
                index,
                files,
                blocks,
            });
        }
    }
    None
}

// Whether the tenant keeps its room for chunks, or had none; where it does not, how many KiB it had.
fn room_not_kept(olds: &[ChunkRoom], news: &[ChunkRoom], tenant: u8) -> Option<u32>
    ensures kept { is_none result ≡ nat_le (kib_of olds.now tenant) (kib_of news.now tenant) }
    ensures told { IfSome result (λ before. (before ≡ kib_of olds.now tenant) × (kib_of news.now tenant < before)) }
{
    let before = kib_of(olds, tenant);
    if kib_of(news, tenant) < before {
        return Some(before);
    }
    None
}

// What of its room for chunks the tenant of the plan does not keep, where these are gone.
fn room_of_not_kept(
    gone: &[Name],
    plan: &Plan,
    olds: &[ChunkRoom],
    news: &[ChunkRoom],
    tenant: u8,
) -> Option<NotKept>
    requires { tenant < length plan.now.rows }
    ensures kept { is_none result ≡ (is_gone_at gone.now plan.now tenant || nat_le (kib_of olds.now tenant) (kib_of news.now tenant)) }
    ensures told { IfSome result (TellsRoom gone.now plan.now olds.now news.now) }
{
    if is_gone(gone, plan.row(tenant).name.as_bytes()) {
        return None;
    }
    let before = room_not_kept(olds, news, tenant)?;
    Some(NotKept::Chunks {
        place: tenant as usize,
        before,
    })
}

// The first of the rooms for chunks of the old plan that is not kept, where these are gone.
pub(crate) fn rooms_not_kept(
    gone: &[Name],
    plan: &Plan,
    olds: &[ChunkRoom],
    news: &[ChunkRoom],
) -> Option<NotKept>
    requires { All (λ room. room.tenant < length plan.now.rows) olds.now }
    ensures kept { is_none result ≡ rooms_go_on gone.now plan.now olds.now news.now }
    ensures told { IfSome result (TellsRoom gone.now plan.now olds.now news.now) }
{
    for room in olds {
        if let Some(what) = room_of_not_kept(gone, plan, olds, news, room.tenant) {
            return Some(what);
        }
    }
    None
}
