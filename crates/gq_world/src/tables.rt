//! The tables of all tenants, and what a line does to them.

ghost use Rattle.std.specs.Prelude.{◌≡◌, ◌<◌, ◌≤◌, ◌+◌, ◌*◌, length, map, replicate, not, nat_le, slice_set, true, false, Some, IfOk, IfErr, IfNone, OnOk};
ghost use Rattle.gq_grid.specs.Grid.{choose};
ghost use Rattle.gq_grid.specs.declared.TheConstants.{MOST_SERVERS};
ghost use Rattle.gq_desk.specs.CheckedPlan.{row_at};
ghost use Rattle.gq_model.specs.declared.events.Event.{Event};
ghost use Rattle.gq_model.specs.declared.events.Line.{Line};
ghost use Rattle.gq_model.specs.Events.{IsIn};
ghost use Rattle.gq_model.specs.Lone.{choice_told, change_refusal, loss_refusal, repair_refusal, first_cause};
ghost use Rattle.gq_model.specs.Shown.{shown};
ghost use Rattle.gq_model.specs.Told.{Began};
ghost use Rattle.gq_post.specs.Channels.{channel_at, message_at};
ghost use Rattle.gq_store.specs.Copies.{empty_store, blocks_free};
ghost use Rattle.gq_world.specs.Tables.{no_session_state};
ghost use Rattle.gq_world.specs.Whole.{FewSessions};

use crate::chooser::Chooser;
use crate::new_files::add_everywhere;
use crate::peers::{peer_among, take_copies};
use crate::replies::{answer, serve};
use crate::sending::answer_heard;
use crate::sessions::{SessionStates, give_up_everywhere};
use bytes::Bytes;
use gq_desk::{Desk, OpenRefused, Plan, VolumeRows};
use gq_grid::ServerSet;
use gq_memory::{GrowVec, OutOfMemory, filled, slice_copied};
use gq_model::{Answer, Event, Line, Refusal, ServerLine, ServerRefusal};
use gq_phase::{BeginRefused, Messages, Operation, ResendRefused, Who};
use gq_post::Post;
use gq_store::ServerStore;
use gq_tag::{FileId, MessageView};
use std::alloc::Global;
use std::marker::Model;

/// The tables of all tenants. No call undoes anything where memory is wanting: the tables then have their shape, and stand
/// for nothing.
#[derive(Drop)]
pub(crate) struct Core {
    alloc: Global,
    plan: Plan,
    up: Chooser,
    // the servers that are not lost
    kept: ServerSet,
    // how many steps of each tenant are taken
    lines: Vec<u32>,
    desk: Desk,
    post: Post,
    // one for each server
    stores: Vec<ServerStore>,
    // the sessions of each tenant
    session_states: Vec<SessionStates>,
    // where the content of a server's copy is read to
    content: Vec<u8>,
}

impl Model for Core {
    ghost use Rattle.std.specs.Prelude.{◌≡◌};
    ghost use Rattle.gq_world.specs.Tables.{Tables, IsShaped};

    ghost Value = { Tables };

    ghost view = { λ w. record { plan = w.plan; up = w.up.up; kept = w.kept; lines = w.lines.items; desk = w.desk; channels = w.post; stores = w.stores.items; session_states = w.session_states.items } };

    ghost invariant = { λ w. (w.up.grid ≡ w.plan.grid) × IsShaped (record { plan = w.plan; up = w.up.up; kept = w.kept; lines = w.lines.items; desk = w.desk; channels = w.post; stores = w.stores.items; session_states = w.session_states.items }) };
}

// A store for each server of the plan.
fn new_stores(alloc: Global, plan: &Plan) -> Result<Vec<ServerStore>, OutOfMemory>
    ensures stores { IfOk result (λ stores. stores.items ≡ replicate (plan.now.grid.rows * plan.now.grid.cols) (empty_store plan.now)) }
    ensures few { plan.now.grid.rows * plan.now.grid.cols ≤ MOST_SERVERS }
{
    let mut stores = Vec::new(alloc);
    let servers = plan.grid().servers();
    for _server in 0..servers {
        stores.grow(ServerStore::new(alloc, plan)?)?;
    }
    Ok(stores)
}

// The sessions of each tenant of the plan.
fn new_session_states(alloc: Global, plan: &Plan) -> Result<Vec<SessionStates>, OutOfMemory>
    ensures session_states { IfOk result (λ session_states. session_states.items ≡ map (λ row. replicate row.sessions no_session_state) plan.now.rows) }
    ensures few { IfOk result (λ session_states. FewSessions plan.now) }
{
    let mut session_states = Vec::new(alloc);
    for row in plan.rows() {
        session_states.grow(SessionStates::new(alloc, row.sessions)?)?;
    }
    Ok(session_states)
}

impl Core {
    ghost use Rattle.gq_world.specs.Tables.{IsReady, session_states_at, session_state_in, store_at, taken_at, up_in, gone_in};
    ghost use Rattle.gq_world.specs.Losses.{Loses, Repairs, HasPeer};
    ghost use Rattle.gq_world.specs.Whole.{AllSound, IsFirst};
    ghost use Rattle.gq_world.specs.Asking.{volume_causes, file_causes, write_causes, idle_causes, begun_tables};
    ghost use Rattle.gq_world.specs.Machine.{Advances, Acts, Tells, TellsLine};

    // The tables of the plan: all servers are up, no volume is open, and no line came.
    pub(crate) fn new(alloc: Global, plan: Plan) -> Result<Core, OutOfMemory>
        ensures { IfOk result (λ w. IsFirst plan w) }
    {
        let lines = filled(alloc, 0u32, plan.tenants())?;
        let desk = Desk::new(alloc, &plan)?;
        let post = Post::new(alloc, plan.tenants())?;
        let stores = new_stores(alloc, &plan)?;
        let session_states = new_session_states(alloc, &plan)?;
        let up = Chooser::new(*plan.grid());
        let kept = ServerSet::all(plan.grid());
        Ok(Core {
            alloc,
            plan,
            up,
            kept,
            lines,
            desk,
            post,
            stores,
            session_states,
            content: Vec::new(alloc),
        })
    }

    // Lets the tables go, the servers' blocks behind all else ([`ServerStore::clear`] says why).
    pub(crate) fn close(self) {
        let Core {
            alloc: _,
            plan,
            up,
            kept: _,
            lines,
            desk,
            post,
            mut stores,
            session_states,
            content,
        } = self;
        drop(plan);
        drop(up);
        drop(lines);
        drop(desk);
        drop(post);
        drop(session_states);
        drop(content);
        for server in 0..stores.len() {
            stores[server].clear();
        }
        drop(stores);
    }

    // The plan.
    pub(crate) fn plan(&self) -> &Plan
        ensures { result.now ≡ self.now.plan }
    {
        &self.plan
    }

    // The servers that are up.
    pub(crate) fn up(&self) -> ServerSet
        ensures { result ≡ self.now.up }
    {
        self.up.servers()
    }

    // The store of the server.
    pub(crate) fn store(&self, server: usize) -> &ServerStore
        requires { server < self.now.plan.grid.rows * self.now.plan.grid.cols }
        ensures store { result.now ≡ store_at self.now.stores server }
        ensures blocks { result.now.blocks ≡ self.now.plan.blocks }
    {
        &self.stores[server]
    }

    // The tenant's message of this number.
    pub(crate) fn message(&self, tenant: u8, number: u64) -> Option<MessageView<'_>>
        requires { tenant < length self.now.plan.rows }
        ensures { result ≡ message_at (channel_at self.now.channels tenant) number }
    {
        self.post.get(tenant, number)
    }

    // One event.
    #[inline(always)]
    pub(crate) fn advance(&mut self, event: &Event) -> Result<Answer, OutOfMemory>
        requires tenant { IsIn self.old.plan event.now }
        requires sound { AllSound self.old }
        ensures answer { IfOk result (λ answer. Tells self.old event.now (shown answer)) }
        ensures advances { OnOk result (Advances self.old event.now self.new) }
        ensures plan { self.new.plan ≡ self.old.plan }
    {
        match event {
            Event::Tenant { tenant, line } => self.tenant_line(*tenant, line),
            Event::Server { line } => Ok(self.server_line(line)),
            Event::Stray => Ok(Answer::StrayBad),
        }
    }

    // ---- lines of a tenant

    // A line of a tenant.
    #[inline(always)]
    fn tenant_line(&mut self, tenant: u8, line: &Line) -> Result<Answer, OutOfMemory>
        requires tenant { tenant < length self.old.plan.rows }
        requires sound { AllSound self.old }
        ensures answer { IfOk result (λ answer. Tells self.old (Event.Tenant tenant line.now) (shown answer)) }
        ensures advances { OnOk result (Advances self.old (Event.Tenant tenant line.now) self.new) }
        ensures plan { self.new.plan ≡ self.old.plan }
    {
        if !self.take_step(tenant) {
            return Ok(Answer::Refused(Refusal::Spent));
        }
        self.act(tenant, line)
    }

    // Takes one of the tenant's steps, where one is left.
    #[inline(always)]
    fn take_step(&mut self, tenant: u8) -> bool
        requires { tenant < length self.old.plan.rows }
        ensures left { result ≡ not (nat_le (row_at self.old.plan tenant).steps (taken_at self.old tenant)) }
        ensures none { result ≡ false → self.new ≡ self.old }
        ensures taken { result ≡ true → self.new ≡ record self.old { lines = slice_set self.old.lines tenant (taken_at self.old tenant + 1) } }
        ensures few { result ≡ true → taken_at self.old tenant + 1 < 4294967296 }
        ensures within { tenant < length self.old.lines }
    {
        let steps = self.plan.row(tenant).steps;
        let count = self.lines[tenant as usize];
        if count >= steps {
            return false;
        }
        self.lines[tenant as usize] = count + 1;
        true
    }

    // A line of a tenant, whose step is taken.
    #[inline(always)]
    fn act(&mut self, tenant: u8, line: &Line) -> Result<Answer, OutOfMemory>
        requires tenant { tenant < length self.old.plan.rows }
        requires ready { IsReady self.old tenant }
        ensures answer { IfOk result (λ answer. TellsLine self.old tenant line.now (shown answer)) }
        ensures acts { OnOk result (Acts self.old tenant line.now self.new) }
        ensures plan { self.new.plan ≡ self.old.plan }
    {
        match line {
            Line::Bad => Ok(Answer::Refused(Refusal::Bad)),
            Line::Quorum => Ok(self.quorum()),
            Line::NewVolume { files, blocks } => self.open(tenant, *files, *blocks),
            Line::Volumes => self.volumes(tenant),
            Line::Write {
                session,
                volume,
                file,
                bytes,
            } => self.write(tenant, *session, *volume, *file, bytes),
            Line::Read {
                session,
                volume,
                file,
            } => self.read(tenant, *session, *volume, *file),
            Line::List { session, volume } => self.list(tenant, *session, *volume),
            Line::Deliver { number } => self.deliver(tenant, *number),
            Line::Lose { number } => Ok(self.lose(tenant, *number)),
            Line::Retry { session } => self.retry(tenant, *session),
            Line::Abandon { session } => Ok(self.abandon(tenant, *session)),
        }
    }

    // What is told to a quorum line.
    fn quorum(&self) -> Answer
        ensures { shown result ≡ choice_told self.now.plan.grid (choose self.now.plan.grid (up_in self.now.plan.grid self.now.up)) }
    {
        match self.up.choice() {
            Some(choice) => Answer::Quorum(choice),
            None => Answer::Refused(Refusal::NoQuorum),
        }
    }

    // A line that opens a volume.
    fn open(&mut self, tenant: u8, files: u32, blocks: u32) -> Result<Answer, OutOfMemory>
        requires tenant { tenant < length self.old.plan.rows }
        requires ready { IsReady self.old tenant }
        ensures answer { IfOk result (λ answer. TellsLine self.old tenant (Line.NewVolume files blocks) (shown answer)) }
        ensures acts { OnOk result (Acts self.old tenant (Line.NewVolume files blocks) self.new) }
        ensures plan { self.new.plan ≡ self.old.plan }
    {
        match self.desk.open_volume(tenant, files, blocks) {
            Ok(number) => {
                add_everywhere(&mut self.stores, tenant, files, blocks)?;
                Ok(Answer::Volume { number })
            }
            Err(OpenRefused::Size) => Ok(Answer::Refused(Refusal::Size)),
            Err(OpenRefused::Volumes) => Ok(Answer::Refused(Refusal::Volumes)),
            Err(OpenRefused::Share { free }) => Ok(Answer::Refused(Refusal::Share { free })),
            Err(OpenRefused::Memory(refused)) => Err(refused),
        }
    }

    // A line that asks for the volumes.
    fn volumes(&self, tenant: u8) -> Result<Answer, OutOfMemory>
        requires { tenant < length self.now.plan.rows }
        ensures { IfOk result (λ answer. TellsLine self.now tenant Line.Volumes (shown answer)) }
    {
        let free = self.desk.free(tenant);
        let items = slice_copied(self.alloc, self.desk.volumes(tenant))?;
        Ok(Answer::Volumes {
            free,
            rows: VolumeRows { items },
        })
    }

    // A line that loses a message.
    fn lose(&mut self, tenant: u8, number: u32) -> Answer
        requires { tenant < length self.old.plan.rows }
        ensures answer { TellsLine self.old tenant (Line.Lose number) (shown result) }
        ensures acts { Acts self.old tenant (Line.Lose number) self.new }
        ensures plan { self.new.plan ≡ self.old.plan }
    {
        if self.post.lose(tenant, u64::from(number)) {
            Answer::Lost
        } else {
            Answer::Refused(Refusal::NoMessage)
        }
    }

    // ---- lines of a session

    // Why a request of the session that names the volume is refused, the choice of a quorum apart.
    fn volume_refusal(&self, tenant: u8, session: u32, volume: u32) -> Option<Refusal>
        requires { tenant < length self.now.plan.rows }
        ensures { result ≡ first_cause (volume_causes self.now tenant session volume) }
    {
        let session_states = self.session_states[tenant as usize].items.as_slice();
        if session < 1 || session as usize > session_states.len() {
            return Some(Refusal::NoSession);
        }
        if session_states[session as usize - 1].operation.is_some() {
            return Some(Refusal::Busy);
        }
        if volume as usize >= self.desk.volumes(tenant).len() {
            return Some(Refusal::NoVolume);
        }
        None
    }

    // Why a request of the session for the file is refused, the choice of a quorum apart.
    fn file_refusal(&self, tenant: u8, session: u32, volume: u32, file: u32) -> Option<Refusal>
        requires { tenant < length self.now.plan.rows }
        ensures { result ≡ first_cause (file_causes self.now tenant session volume file) }
    {
        if let Some(word) = self.volume_refusal(tenant, session, volume) {
            return Some(word);
        }
        match self.desk.limit(FileId {
            tenant,
            volume,
            file,
        }) {
            None => Some(Refusal::NoFile),
            Some(_) => None,
        }
    }

    // Why a request of the session to write the content to the file is refused, the choice of a quorum apart.
    #[inline(always)]
    fn write_refusal(
        &self,
        tenant: u8,
        session: u32,
        volume: u32,
        file: u32,
        bytes: &Bytes,
    ) -> Option<Refusal>
        requires { tenant < length self.now.plan.rows }
        ensures { result ≡ first_cause (write_causes self.now tenant session volume file bytes.now) }
    {
        if let Some(word) = self.file_refusal(tenant, session, volume, file) {
            return Some(word);
        }
        match self.desk.limit(FileId {
            tenant,
            volume,
            file,
        }) {
            Some(limit) if bytes.len() > limit as usize => Some(Refusal::TooLong),
            _ => None,
        }
    }

    // The session at the place has the operation from now on, and its first messages are sent.
    fn begin(
        &mut self,
        tenant: u8,
        place: usize,
        operation: Operation,
        messages: Messages,
    ) -> Result<Answer, OutOfMemory>
        requires tenant { tenant < length self.old.plan.rows }
        requires place { place < (row_at self.old.plan tenant).sessions }
        requires number { (session_state_in (session_states_at self.old.session_states tenant) place).op < 4294967295 }
        ensures answer { IfOk result (λ answer. shown answer ≡ Began ((session_state_in (session_states_at self.old.session_states tenant) place).op + 1) (length (channel_at self.old.channels tenant)) (length messages)) }
        ensures begun { OnOk result (self.new ≡ begun_tables self.old tenant place operation messages) }
        ensures plan { self.new.plan ≡ self.old.plan }
    {
        let sent = self.post.send_all(tenant, messages)?;
        let op = self.session_states[tenant as usize].begin(place, operation);
        Ok(Answer::Began {
            op,
            first: sent.first,
            count: sent.count,
        })
    }

    // A line that begins a write.
    #[inline(always)]
    fn write(
        &mut self,
        tenant: u8,
        session: u32,
        volume: u32,
        file: u32,
        bytes: &Bytes,
    ) -> Result<Answer, OutOfMemory>
        requires tenant { tenant < length self.old.plan.rows }
        requires ready { IsReady self.old tenant }
        ensures answer { IfOk result (λ answer. TellsLine self.old tenant (Line.Write session volume file bytes.now) (shown answer)) }
        ensures acts { OnOk result (Acts self.old tenant (Line.Write session volume file bytes.now) self.new) }
        ensures plan { self.new.plan ≡ self.old.plan }
    {
        if let Some(word) = self.write_refusal(tenant, session, volume, file, bytes) {
            return Ok(Answer::Refused(word));
        }
        let place = session as usize - 1;
        let session_state = &self.session_states[tenant as usize].items[place];
        let who = Who {
            tenant,
            session: session as u8,
            op: session_state.op + 1,
        };
        let id = FileId {
            tenant,
            volume,
            file,
        };
        match Operation::write(
            self.alloc,
            self.plan.grid(),
            who,
            session_state.floor,
            id,
            bytes,
            self.up.servers(),
        ) {
            Ok((operation, messages)) => self.begin(tenant, place, operation, messages),
            Err(BeginRefused::NoQuorum) => Ok(Answer::Refused(Refusal::NoQuorum)),
            Err(BeginRefused::Memory(refused)) => Err(refused),
        }
    }

    // A line that begins a read.
    fn read(
        &mut self,
        tenant: u8,
        session: u32,
        volume: u32,
        file: u32,
    ) -> Result<Answer, OutOfMemory>
        requires tenant { tenant < length self.old.plan.rows }
        requires ready { IsReady self.old tenant }
        ensures answer { IfOk result (λ answer. TellsLine self.old tenant (Line.Read session volume file) (shown answer)) }
        ensures acts { OnOk result (Acts self.old tenant (Line.Read session volume file) self.new) }
        ensures plan { self.new.plan ≡ self.old.plan }
    {
        if let Some(word) = self.file_refusal(tenant, session, volume, file) {
            return Ok(Answer::Refused(word));
        }
        let place = session as usize - 1;
        let session_state = &self.session_states[tenant as usize].items[place];
        let who = Who {
            tenant,
            session: session as u8,
            op: session_state.op + 1,
        };
        let id = FileId {
            tenant,
            volume,
            file,
        };
        match Operation::read(
            self.alloc,
            self.plan.grid(),
            who,
            session_state.floor,
            id,
            self.up.servers(),
        ) {
            Ok((operation, messages)) => self.begin(tenant, place, operation, messages),
            Err(BeginRefused::NoQuorum) => Ok(Answer::Refused(Refusal::NoQuorum)),
            Err(BeginRefused::Memory(refused)) => Err(refused),
        }
    }

    // A line that begins a listing.
    fn list(&mut self, tenant: u8, session: u32, volume: u32) -> Result<Answer, OutOfMemory>
        requires tenant { tenant < length self.old.plan.rows }
        requires ready { IsReady self.old tenant }
        ensures answer { IfOk result (λ answer. TellsLine self.old tenant (Line.List session volume) (shown answer)) }
        ensures acts { OnOk result (Acts self.old tenant (Line.List session volume) self.new) }
        ensures plan { self.new.plan ≡ self.old.plan }
    {
        if let Some(word) = self.volume_refusal(tenant, session, volume) {
            return Ok(Answer::Refused(word));
        }
        let place = session as usize - 1;
        let session_state = &self.session_states[tenant as usize].items[place];
        let who = Who {
            tenant,
            session: session as u8,
            op: session_state.op + 1,
        };
        let files = self.desk.volumes(tenant)[volume as usize].files;
        match Operation::list(
            self.alloc,
            self.plan.grid(),
            who,
            session_state.floor,
            volume,
            files,
            self.up.servers(),
        ) {
            Ok((operation, messages)) => self.begin(tenant, place, operation, messages),
            Err(BeginRefused::NoQuorum) => Ok(Answer::Refused(Refusal::NoQuorum)),
            Err(BeginRefused::Memory(refused)) => Err(refused),
        }
    }

    // Why a line that wants the session to have an operation is refused.
    fn idle_refusal(&self, tenant: u8, session: u32) -> Option<Refusal>
        requires { tenant < length self.now.plan.rows }
        ensures { result ≡ first_cause (idle_causes self.now tenant session) }
    {
        let session_states = self.session_states[tenant as usize].items.as_slice();
        if session < 1 || session as usize > session_states.len() {
            return Some(Refusal::NoSession);
        }
        if session_states[session as usize - 1].operation.is_none() {
            return Some(Refusal::Idle);
        }
        None
    }

    // A line that sends the round's message once more.
    fn retry(&mut self, tenant: u8, session: u32) -> Result<Answer, OutOfMemory>
        requires tenant { tenant < length self.old.plan.rows }
        requires ready { IsReady self.old tenant }
        ensures answer { IfOk result (λ answer. TellsLine self.old tenant (Line.Retry session) (shown answer)) }
        ensures acts { OnOk result (Acts self.old tenant (Line.Retry session) self.new) }
        ensures plan { self.new.plan ≡ self.old.plan }
    {
        if let Some(word) = self.idle_refusal(tenant, session) {
            return Ok(Answer::Refused(word));
        }
        match self.session_states[tenant as usize].resend(session as usize - 1, self.up.servers()) {
            Ok(messages) => {
                let sent = self.post.send_all(tenant, messages)?;
                Ok(Answer::Resent {
                    first: sent.first,
                    count: sent.count,
                })
            }
            Err(ResendRefused::NoQuorum) => Ok(Answer::Refused(Refusal::NoQuorum)),
            Err(ResendRefused::Memory(refused)) => Err(refused),
        }
    }

    // A line that gives the session's operation up.
    fn abandon(&mut self, tenant: u8, session: u32) -> Answer
        requires tenant { tenant < length self.old.plan.rows }
        ensures answer { TellsLine self.old tenant (Line.Abandon session) (shown result) }
        ensures acts { Acts self.old tenant (Line.Abandon session) self.new }
        ensures plan { self.new.plan ≡ self.old.plan }
    {
        if let Some(word) = self.idle_refusal(tenant, session) {
            return Answer::Refused(word);
        }
        self.session_states[tenant as usize].abandon(session as usize - 1);
        Answer::Abandoned
    }

    // ---- messages

    // A line that delivers a message.
    #[inline(always)]
    fn deliver(&mut self, tenant: u8, number: u32) -> Result<Answer, OutOfMemory>
        requires tenant { tenant < length self.old.plan.rows }
        requires ready { IsReady self.old tenant }
        ensures answer { IfOk result (λ answer. TellsLine self.old tenant (Line.Deliver number) (shown answer)) }
        ensures acts { OnOk result (Acts self.old tenant (Line.Deliver number) self.new) }
        ensures plan { self.new.plan ≡ self.old.plan }
    {
        let Some(message) = self.post.get(tenant, u64::from(number)) else {
            return Ok(Answer::Refused(Refusal::NoMessage));
        };
        if !message.to_server() {
            let session_states = &mut self.session_states[tenant as usize];
            // (most replies end no round, and are noted with less ado)
            let noted = session_states.notes(&message)?;
            if noted {
                return Ok(Answer::Noted);
            }
            let heard = session_states.hear(&message, self.up.servers())?;
            return answer_heard(&mut self.post, tenant, heard);
        }
        let server = message.server as usize;
        if !self.up.has(server) {
            return Ok(Answer::Down);
        }
        let file = message.file;
        let answering = &mut self.session_states[tenant as usize];
        answering.answers(&message);
        let store = &mut self.stores[server];
        let response = serve(store, &mut self.content, &message)?;
        let number = answer(
            &mut self.post,
            store,
            self.content.as_slice(),
            tenant,
            u64::from(number),
            file,
            response,
        )?;
        Ok(Answer::Reply { number })
    }

    // ---- server lines

    // Why a line is refused by which the server comes up, or goes down where `up` is false.
    fn refusal(&self, server: u32, up: bool) -> Option<ServerRefusal>
        ensures word { result ≡ change_refusal self.now.plan.grid (up_in self.now.plan.grid self.now.up) (gone_in self.now.plan.grid self.now.kept) server up }
        ensures inside { IfNone result (server < self.now.plan.grid.rows * self.now.plan.grid.cols) }
        ensures bound { self.now.plan.grid.rows * self.now.plan.grid.cols ≤ MOST_SERVERS }
    {
        let servers = self.plan.grid().servers();
        if server as usize >= servers {
            Some(ServerRefusal::NoServer)
        } else if !self.kept.has(server as usize) {
            Some(ServerRefusal::Lost)
        } else if self.up.has(server as usize) == up {
            Some(ServerRefusal::Same)
        } else {
            None
        }
    }

    // Why a line is refused by which the server is lost.
    fn loss_refusal(&self, server: u32) -> Option<ServerRefusal>
        ensures word { result ≡ loss_refusal self.now.plan.grid (gone_in self.now.plan.grid self.now.kept) server }
        ensures inside { IfNone result (server < self.now.plan.grid.rows * self.now.plan.grid.cols) }
        ensures bound { self.now.plan.grid.rows * self.now.plan.grid.cols ≤ MOST_SERVERS }
    {
        let grid = self.plan.grid();
        if server as usize >= grid.servers() {
            Some(ServerRefusal::NoServer)
        } else if !self.kept.has(server as usize) {
            Some(ServerRefusal::Same)
        } else {
            match peer_among(grid, self.kept, server as usize) {
                None => Some(ServerRefusal::Last),
                Some(_) => None,
            }
        }
    }

    // The peer that gives a server its copies which is repaired, or why the line is refused.
    fn peer(&self, server: u32) -> Result<usize, ServerRefusal>
        ensures word { IfErr result (λ word. Some word ≡ repair_refusal self.now.plan.grid (up_in self.now.plan.grid self.now.up) (gone_in self.now.plan.grid self.now.kept) server) }
        ensures peer { IfOk result (λ peer. HasPeer self.now server peer) }
        ensures bound { self.now.plan.grid.rows * self.now.plan.grid.cols ≤ MOST_SERVERS }
    {
        let grid = self.plan.grid();
        if server as usize >= grid.servers() {
            Err(ServerRefusal::NoServer)
        } else if self.kept.has(server as usize) {
            Err(ServerRefusal::Same)
        } else {
            match peer_among(grid, self.up.servers(), server as usize) {
                None => Err(ServerRefusal::NoPeer),
                Some(peer) => Ok(peer),
            }
        }
    }

    // The server is lost, with its copies; operations that count on it are given up.
    fn lose_server(&mut self, server: usize)
        requires { server < self.old.plan.grid.rows * self.old.plan.grid.cols }
        ensures { Loses self.old server self.new }
    {
        give_up_everywhere(&mut self.session_states, server);
        self.stores[server].lose();
        self.up.remove(server);
        self.kept.remove(server);
    }

    // The server is up again, and has the copies of the peer.
    fn repair(&mut self, server: usize, peer: usize)
        requires sound { AllSound self.old }
        requires peer { HasPeer self.old server peer }
        ensures { Repairs self.old server peer self.new }
    {
        take_copies(&mut self.stores, server, peer);
        self.up.insert(server);
        self.kept.insert(server);
    }

    // A server line.
    #[inline(always)]
    fn server_line(&mut self, line: &ServerLine) -> Answer
        requires { AllSound self.old }
        ensures answer { Tells self.old (Event.Server line.now) (shown result) }
        ensures advances { Advances self.old (Event.Server line.now) self.new }
    {
        match line {
            ServerLine::Bad => Answer::ServerRefused(ServerRefusal::Bad),
            ServerLine::Down { server } => match self.refusal(*server, false) {
                Some(word) => Answer::ServerRefused(word),
                None => {
                    self.up.remove(*server as usize);
                    Answer::ServerOk
                }
            },
            ServerLine::Up { server } => match self.refusal(*server, true) {
                Some(word) => Answer::ServerRefused(word),
                None => {
                    self.up.insert(*server as usize);
                    Answer::ServerOk
                }
            },
            ServerLine::Lost { server } => match self.loss_refusal(*server) {
                Some(word) => Answer::ServerRefused(word),
                None => {
                    self.lose_server(*server as usize);
                    Answer::ServerOk
                }
            },
            ServerLine::Repaired { server } => match self.peer(*server) {
                Err(word) => Answer::ServerRefused(word),
                Ok(peer) => {
                    self.repair(*server as usize, peer);
                    Answer::Repaired { peer: peer as u32 }
                }
            },
        }
    }
}
