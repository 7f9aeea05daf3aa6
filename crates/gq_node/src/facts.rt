//! What a start makes of a fact, and the facts that a start needs.

ghost use Rattle.std.specs.Prelude.{◌≡◌, ◌↔◌, ◌<◌, ◌≤◌, ◌++◌, ◌==◌, ℕ, length, map, true, false, IfOk, IfErr, IsSome, OnOk, IsTrue, unwrap_or};
ghost use Rattle.gq_tag.specs.Tag.{file_of, file_place, first_copy, first_tag, is_less};
ghost use Rattle.gq_desk.specs.CheckedPlan.{row_at};
ghost use Rattle.gq_node.specs.Sites.{site_of, has_session, home_of};
ghost use Rattle.gq_desk.specs.Volumes.{account_at, limit_of};
ghost use Rattle.gq_desk.specs.declared.limits.TheConstants.{MOST_VOLUMES};
ghost use Rattle.gq_store.specs.Copies.{copy_at};
ghost use Rattle.gq_node.specs.Local.{recalls};
ghost use Rattle.gq_node.specs.Needing.{is_own, file_facts, IsReadable, IsRefusedOf, place_numbers, session_states_facts, file_at, place_facts, files_facts, files_in, volumes_facts, tenant_facts, PlaceReadable, AllReadable, IsRefusedIn};
ghost use Rattle.gq_node.specs.Recalling.{tenant_of, own_fact, fits_in};
ghost use Rattle.gq_node.specs.Tables.{fact_of, is_new_node, Leads, session_state_at, with_session_state};
ghost use Rattle.gq_node.specs.Resting.{Needed};
ghost use Rattle.gq_node.specs.SessionStates.{recalled_session_state};

use crate::homes::{home, session_state_place};
use crate::letters::copy_fits;
use crate::output::{Fact, NeedRefused, put_begun, put_number};
use crate::tables::Core;
use gq_memory::{GrowVec, OutOfMemory, bytes_of};
use gq_tag::{FileId, StoredCopy};

// Whether the copy is that with which a file begins.
fn is_first(copy: &StoredCopy) -> bool
    ensures { IsTrue result ↔ (copy.now ≡ first_copy) }
{
    copy.tag.number == 0 && copy.tag.session == 0 && copy.bytes.is_empty()
}

// Whether the copy's tag is above the first one.
fn is_above_first(copy: &StoredCopy) -> bool
    ensures { result ≡ is_less first_tag copy.now.tag }
{
    0 < copy.tag.number || 0 == copy.tag.number && 0 < copy.tag.session
}

// Whether a start would take the copy again.
fn is_readable(limit: u32, copy: &StoredCopy) -> bool
    ensures readable { result ≡ true → IsReadable limit copy.now }
    ensures not { result ≡ false → IsReadable limit copy.now → ⊥ }
{
    if is_above_first(copy) {
        copy_fits(limit, copy)
    } else {
        is_first(copy)
    }
}

// Appends what a start needs of the file, at a new node or another, whose server lacks it or has this copy, where a start would take it
// again.
fn put_file(
    new: bool,
    lacks: bool,
    limit: u32,
    file: FileId,
    copy: StoredCopy,
    facts: &mut Vec<Fact>,
) -> Result<(), NeedRefused>
    ensures facts { OnOk result (facts.new.items ≡ facts.old.items ++ map (fact_of file.tenant) (file_facts new lacks (file_place file) copy)) }
    ensures readable { OnOk result (IsReadable limit copy) }
    ensures refused { IfErr result (IsRefusedOf limit copy) }
{
    if !is_readable(limit, &copy) {
        return Err(NeedRefused::Unreadable);
    }
    if new {
        if !lacks {
            facts.grow(Fact::Had { file, copy })?;
        }
        return Ok(());
    }
    if is_above_first(&copy) {
        facts.grow(Fact::Kept { file, copy })?;
    }
    Ok(())
}

impl Core {
    // For a session of a start these numbers are reserved, where there is the session.
    fn recall_session(
        &mut self,
        tenant: u8,
        session: u8,
        op: Option<u32>,
        number: Option<u64>,
    ) -> bool
        requires { tenant < length self.old.plan.rows }
        ensures fits { result ≡ has_session (site_of self.old.plan self.old.here tenant) session }
        ensures none { result ≡ false → self.new ≡ self.old }
        ensures recalled { result ≡ true → self.new ≡ with_session_state self.old tenant session
            (recalled_session_state (session_state_at self.old tenant session) (unwrap_or op (session_state_at self.old tenant session).reserved_op) (unwrap_or number (session_state_at self.old tenant session).reserved_floor)) }
        ensures desk { self.new.desk ≡ self.old.desk }
    {
        if !self.has(tenant, u32::from(session)) {
            return false;
        }
        self.session_states[tenant as usize].recall(
            session_state_place(u32::from(session)),
            op,
            number,
        );
        true
    }

    // The server of a start has this copy, where the file is there and has room for it, and the server does not lack it.
    fn recall_copy(&mut self, file: FileId, copy: &StoredCopy) -> bool
        requires { file.tenant < length self.old.plan.rows }
        ensures leads { Leads self.old file.tenant (recalls (own_fact (Fact.Kept file copy.now))) self.new }
        ensures fits { result ≡ fits_in self.old (Fact.Kept file copy.now) }
        ensures none { result ≡ false → self.new ≡ self.old }
        ensures desk { self.new.desk ≡ self.old.desk }
    {
        let Some(limit) = self.desk.limit(file) else {
            return false;
        };
        if !copy_fits(limit, copy) {
            return false;
        }
        if self.lacks(file) {
            return true;
        }
        let _put = self.store.put(file, copy.tag, copy.bytes.as_slice());
        true
    }

    // The server of a start was given this copy, where the file is there and has room for it.
    fn recall_given(&mut self, file: FileId, copy: &StoredCopy) -> bool
        requires { file.tenant < length self.old.plan.rows }
        ensures leads { Leads self.old file.tenant (recalls (own_fact (Fact.Had file copy.now))) self.new }
        ensures fits { result ≡ fits_in self.old (Fact.Had file copy.now) }
        ensures none { result ≡ false → self.new ≡ self.old }
        ensures desk { self.new.desk ≡ self.old.desk }
    {
        let Some(limit) = self.desk.limit(file) else {
            return false;
        };
        if !copy_fits(limit, copy) {
            return false;
        }
        if !self.is_there(file) {
            return false;
        }
        self.has_now(file, copy);
        true
    }

    // Reads a fact at a start. Answers whether it fits.
    pub(crate) fn recall(&mut self, fact: &Fact) -> bool
        requires { tenant_of fact.now < length self.old.plan.rows }
        ensures leads { Leads self.old (tenant_of fact.now) (recalls (own_fact fact.now)) self.new }
        ensures fits { result ≡ fits_in self.old fact.now }
        ensures none { result ≡ false → self.new ≡ self.old }
        ensures desk { self.new.desk ≡ self.old.desk }
    {
        let _node = self.node;
        match fact {
            Fact::Began {
                tenant,
                session,
                op,
            } => self.recall_session(*tenant, *session, Some(*op), None),
            Fact::Numbered {
                tenant,
                session,
                number,
            } => self.recall_session(*tenant, *session, None, Some(*number)),
            Fact::Kept { file, copy } => self.recall_copy(*file, copy),
            Fact::Had { file, copy } => self.recall_given(*file, copy),
        }
    }

    // Whether this node is the session's home.
    pub(crate) fn is_home(&self, tenant: u8, session: u8) -> bool
        requires { tenant < length self.now.plan.rows }
        ensures { result ≡ (home_of self.now.plan tenant session == self.now.here.node) }
    {
        home(&self.plan, tenant, session) == self.node
    }

    // Whether it is, and a new node.
    fn is_own(&self, tenant: u8, session: u8) -> bool
        requires { tenant < length self.now.plan.rows }
        ensures { result ≡ is_own self.now tenant session }
    {
        self.is_new() && self.is_home(tenant, session)
    }

    // Appends what a start needs of the session at that place.
    fn put_session_state(
        &self,
        tenant: u8,
        place: usize,
        facts: &mut Vec<Fact>,
    ) -> Result<(), OutOfMemory>
        requires tenant { tenant < length self.now.plan.rows }
        requires place { place < (row_at self.now.plan tenant).sessions }
        ensures { OnOk result (facts.new.items ≡ facts.old.items ++ map (fact_of tenant) (place_numbers self.now tenant place)) }
    {
        let session = self.session_at(tenant, place);
        let own = self.is_own(tenant, session);
        let session_state = &self.session_states[tenant as usize].items[place];
        put_begun(tenant, session, session_state.reserved_op, facts)?;
        put_number(own, tenant, session, session_state.reserved_floor, facts)
    }

    // Appends what a start needs of the tenant's sessions.
    fn put_session_states(&self, tenant: u8, facts: &mut Vec<Fact>) -> Result<(), OutOfMemory>
        requires { tenant < length self.now.plan.rows }
        ensures { OnOk result (facts.new.items ≡ facts.old.items ++ map (fact_of tenant) (session_states_facts self.now tenant (row_at self.now.plan tenant).sessions)) }
    {
        let sessions = self.plan.row(tenant).sessions;
        for place in 0..sessions {
            self.put_session_state(tenant, place as usize, facts)?;
        }
        Ok(())
    }

    // The copy of the file.
    pub(crate) fn copy_of(&self, file: FileId) -> Result<StoredCopy, OutOfMemory>
        requires { IsSome (limit_of self.now.desk file) }
        ensures { IfOk result (λ copy. copy ≡ copy_at self.now.store file) }
    {
        let mut bytes = Vec::new(self.alloc);
        let tag = self.store.read(file, &mut bytes)?;
        Ok(StoredCopy {
            tag,
            bytes: bytes_of(bytes)?,
        })
    }

    // Whether a start needs nothing of the file: this is no new node, and its server has the copy with which a file begins.
    fn needs_nothing(&self, file: FileId) -> bool
        requires { IsSome (limit_of self.now.desk file) }
        ensures old { result ≡ true → is_new_node self.now ≡ false }
        ensures first { result ≡ true → copy_at self.now.store file ≡ first_copy }
    {
        if self.is_new() || self.store.len(file) > 0 {
            return false;
        }
        let tag = self.store.tag(file);
        tag.number == 0 && tag.session == 0
    }

    // Appends what a start needs of the file.
    fn put_place(
        &self,
        tenant: u8,
        volume: u32,
        place: u32,
        facts: &mut Vec<Fact>,
    ) -> Result<(), NeedRefused>
        requires tenant { tenant < length self.now.plan.rows }
        requires there { IsSome (limit_of self.now.desk (file_of tenant (file_at volume place))) }
        ensures facts { OnOk result (facts.new.items ≡ facts.old.items ++ map (fact_of tenant) (place_facts self.now tenant volume place)) }
        ensures readable { OnOk result (PlaceReadable self.now tenant volume place) }
        ensures refused { IfErr result (IsRefusedIn self.now) }
    {
        let file = FileId {
            tenant,
            volume,
            file: place,
        };
        let Some(limit) = self.desk.limit(file) else {
            return Ok(());
        };
        if self.needs_nothing(file) {
            return Ok(());
        }
        let copy = self.copy_of(file)?;
        put_file(self.is_new(), self.lacks(file), limit, file, copy, facts)
    }

    // Appends what a start needs of so many files of the volume.
    fn put_files(
        &self,
        tenant: u8,
        volume: u32,
        files: u32,
        facts: &mut Vec<Fact>,
    ) -> Result<(), NeedRefused>
        requires tenant { tenant < length self.now.plan.rows }
        requires volume { volume < length (account_at self.now.desk tenant).volumes }
        requires files { files ≡ files_in self.now tenant volume }
        ensures facts { OnOk result (facts.new.items ≡ facts.old.items ++ map (fact_of tenant) (files_facts self.now tenant volume files)) }
        ensures readable { OnOk result ((place : ℕ) → place < files → PlaceReadable self.now tenant volume place) }
        ensures refused { IfErr result (IsRefusedIn self.now) }
    {
        for place in 0..files {
            self.put_place(tenant, volume, place, facts)?;
        }
        Ok(())
    }

    // How many volumes the tenant has.
    pub(crate) fn count_volumes(&self, tenant: u8) -> usize
        requires { tenant < length self.now.plan.rows }
        ensures count { result ≡ length (account_at self.now.desk tenant).volumes }
        ensures few { result ≤ MOST_VOLUMES }
    {
        self.desk.volumes(tenant).len()
    }

    // Appends what a start needs of the tenant's files.
    fn put_volumes(&self, tenant: u8, facts: &mut Vec<Fact>) -> Result<(), NeedRefused>
        requires { tenant < length self.now.plan.rows }
        ensures facts { OnOk result (facts.new.items ≡ facts.old.items ++ map (fact_of tenant) (volumes_facts self.now tenant)) }
        ensures readable { OnOk result ((volume : ℕ) → volume < length (account_at self.now.desk tenant).volumes → (place : ℕ) → place < files_in self.now tenant volume → PlaceReadable self.now tenant volume place) }
        ensures refused { IfErr result (IsRefusedIn self.now) }
    {
        let count = self.count_volumes(tenant);
        for volume in 0..count {
            let files = self.files(tenant, volume as u32);
            self.put_files(tenant, volume as u32, files, facts)?;
        }
        Ok(())
    }

    // Appends what a start needs of the tenant.
    fn put_tenant(&self, tenant: u8, facts: &mut Vec<Fact>) -> Result<(), NeedRefused>
        requires { tenant < length self.now.plan.rows }
        ensures facts { OnOk result (facts.new.items ≡ facts.old.items ++ map (fact_of tenant) (tenant_facts self.now tenant)) }
        ensures readable { OnOk result (AllReadable self.now tenant) }
        ensures refused { IfErr result (IsRefusedIn self.now) }
    {
        self.put_session_states(tenant, facts)?;
        self.put_volumes(tenant, facts)
    }

    // What a start needs.
    pub(crate) fn needed(&self) -> Result<Vec<Fact>, NeedRefused>
        ensures needed { IfOk result (λ facts. Needed self.now facts.items) }
        ensures refused { IfErr result (IsRefusedIn self.now) }
    {
        let mut facts = Vec::new(self.alloc);
        let tenants = self.plan.tenants();
        for place in 0..tenants {
            self.put_tenant(place as u8, &mut facts)?;
        }
        Ok(facts)
    }
}
