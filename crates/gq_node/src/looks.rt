//! What the server has of a volume, as its tenant is told.

ghost use Rattle.std.specs.Prelude.{◌≡◌, ◌<◌, length, map, IfOk, IsSome};
ghost use Rattle.gq_tag.specs.Tag.{file_place};
ghost use Rattle.gq_desk.specs.Volumes.{account_at, limit_of};
ghost use Rattle.gq_model.specs.Trace.{files_of};
ghost use Rattle.gq_node.specs.Joining.{files_in_volume};
ghost use Rattle.gq_node.specs.Looked.{tells_look};
ghost use Rattle.gq_node.specs.Tables.{Acts, row_at_server};

use crate::output::{Answer, HeldRows, Look, Output};
use crate::tables::Core;
use gq_memory::{GrowVec, OutOfMemory};
use gq_phase::Row;
use gq_tag::FileId;

impl Core {
    // The length and the tag of the copy of the file, unless the server lacks the file.
    fn held_row(&self, file: FileId) -> Option<Row>
        requires tenant { file.tenant < length self.now.plan.rows }
        requires there { IsSome (limit_of self.now.desk file) }
        ensures { result ≡ row_at_server self.now file.tenant (file_place file) }
    {
        if self.lacks(file) {
            return None;
        }
        Some(Row {
            length: self.store.len(file) as u64,
            tag: self.store.tag(file),
        })
    }

    // And of each file of the volume.
    fn held_rows(&self, tenant: u8, volume: u32) -> Result<Vec<Option<Row>>, OutOfMemory>
        requires tenant { tenant < length self.now.plan.rows }
        requires volume { volume < length (account_at self.now.desk tenant).volumes }
        ensures { IfOk result (λ rows. rows.items ≡ map (row_at_server self.now tenant) (files_in_volume volume (files_of (account_at self.now.desk tenant).volumes volume))) }
    {
        let mut rows = Vec::new(self.alloc);
        for place in 0..self.files(tenant, volume) {
            let file = FileId {
                tenant,
                volume,
                file: place,
            };
            rows.grow(self.held_row(file))?;
        }
        Ok(rows)
    }

    // The tenant asks what the server has of the volume.
    pub(crate) fn tell_look(
        &self,
        tenant: u8,
        mark: u64,
        volume: u32,
    ) -> Result<Output, OutOfMemory>
        requires { tenant < length self.now.plan.rows }
        ensures acts { IfOk result (λ out. Acts self.now tenant (tells_look mark volume) out self.now) }
    {
        if volume as usize >= self.count_volumes(tenant) {
            return Ok(Output::told(self.alloc, Answer::NotLooked { mark, volume }));
        }
        let look = Look {
            mark,
            volume,
            losses: self.lost.places().len(),
            rows: HeldRows {
                items: self.held_rows(tenant, volume)?,
            },
        };
        Ok(Output::told(self.alloc, Answer::Looked(look)))
    }
}
