//! What a tenant's request does to the tables.

ghost use Rattle.std.specs.Prelude.{◌≡◌, ◌<◌, ◌≤◌, ◌+◌, [], length, true, false, Some, None, IfOk, IsErrOf, option_map};
ghost use Rattle.gq_grid.specs.Sets.{servers};
ghost use Rattle.gq_node.specs.Sites.{site_of, has_session};
ghost use Rattle.gq_model.specs.declared.events.Line.{Line};
ghost use Rattle.gq_model.specs.Lone.{first_cause};
ghost use Rattle.gq_cluster.specs.Facts.{greatest_op};
ghost use Rattle.gq_node.specs.declared.output.Admission.TheVariants.{Goes};
ghost use Rattle.gq_node.specs.Local.{asks, asker, begins, refused_with};
ghost use Rattle.gq_node.specs.Tables.{Acts, session_state_at};
ghost use Rattle.gq_node.specs.Asking.{volume_causes, file_causes, write_causes, admission_at, MayGo, HasBegunWith, Starts};
ghost use Rattle.gq_node.specs.SessionStates.{session_state_aim};

use crate::aims::aim;
use crate::homes::{home, session_state_place};
use crate::output::{Admission, Answer, Output, begun_fact, refused_answer};
use crate::tables::Core;
use bytes::Bytes;
use gq_grid::ServerSet;
use gq_memory::OutOfMemory;
use gq_model::{Line, Refusal};
use gq_phase::{BeginRefused, Messages, Operation, Who};
use gq_tag::FileId;

// What a session's next operation begins with: whose it is, the session's own last number, and whom it asks.
#[derive(Drop)]
struct Next {
    who: Who,
    floor: u64,
    up: ServerSet,
}

// The session that a request is of, and whether the request begins an operation. None where the line is no request.
fn asked(line: &Line) -> Option<(u32, bool)>
    ensures { result ≡ option_map (λ k. (k, begins line.now)) (asker line.now) }
{
    match line {
        Line::Write { session, .. } | Line::Read { session, .. } | Line::List { session, .. } => {
            Some((*session, true))
        }
        Line::Abandon { session } => Some((*session, false)),
        _ => None,
    }
}

impl Core {
    // What the number of a request of the session decides.
    fn admission(
        &self,
        tenant: u8,
        session: u32,
        op: u32,
        begins: bool,
    ) -> Result<Admission, OutOfMemory>
        requires { tenant < length self.now.plan.rows }
        ensures { IfOk result (λ admission. admission ≡ admission_at self.now tenant session op begins) }
    {
        if !self.has(tenant, session) {
            return Ok(Admission::Tells(Answer::Refused {
                session,
                op,
                refusal: Refusal::NoSession,
            }));
        }
        let home = home(&self.plan, tenant, session as u8);
        if home != self.node {
            return Ok(Admission::Tells(Answer::Away { session, op, home }));
        }
        self.session_states[tenant as usize].items[session_state_place(session)].admission(
            session, op, begins,
        )
    }

    // Why a request of the session that names the volume is refused, the choice of a quorum apart.
    fn volume_refusal(&self, tenant: u8, session: u32, volume: u32) -> Option<Refusal>
        requires { tenant < length self.now.plan.rows }
        ensures { result ≡ first_cause (volume_causes self.now tenant session volume) }
    {
        if !self.has(tenant, session) {
            return Some(Refusal::NoSession);
        }
        if self.session_states[tenant as usize].items[session_state_place(session)]
            .operation
            .is_some()
        {
            return Some(Refusal::Busy);
        }
        if volume as usize >= self.desk.volumes(tenant).len() {
            return Some(Refusal::NoVolume);
        }
        None
    }

    // Why a request of the session for the file is refused, the choice of a quorum apart.
    fn file_refusal(&self, tenant: u8, session: u32, volume: u32, file: u32) -> Option<Refusal>
        requires { tenant < length self.now.plan.rows }
        ensures { result ≡ first_cause (file_causes self.now tenant session volume file) }
    {
        if let Some(word) = self.volume_refusal(tenant, session, volume) {
            return Some(word);
        }
        match self.desk.limit(FileId {
            tenant,
            volume,
            file,
        }) {
            None => Some(Refusal::NoFile),
            Some(_) => None,
        }
    }

    // Why a request of the session to write the content to the file is refused, the choice of a quorum apart.
    fn write_refusal(
        &self,
        tenant: u8,
        session: u32,
        volume: u32,
        file: u32,
        bytes: &Bytes,
    ) -> Option<Refusal>
        requires { tenant < length self.now.plan.rows }
        ensures { result ≡ first_cause (write_causes self.now tenant session volume file bytes.now) }
    {
        if let Some(word) = self.file_refusal(tenant, session, volume, file) {
            return Some(word);
        }
        match self.desk.limit(FileId {
            tenant,
            volume,
            file,
        }) {
            Some(limit) if bytes.len() > limit as usize => Some(Refusal::TooLong),
            _ => None,
        }
    }

    // The number of the session's last operation.
    fn last_op(&self, tenant: u8, session: u32) -> u32
        requires tenant { tenant < length self.now.plan.rows }
        requires has { has_session (site_of self.now.plan self.now.here tenant) session ≡ true }
        ensures { result ≡ (session_state_at self.now tenant session).op }
    {
        self.session_states[tenant as usize].items[session_state_place(session)].op
    }

    // The session's request is refused.
    fn refused(&self, tenant: u8, session: u32, op: u32, refusal: Refusal) -> Output
        requires tenant { tenant < length self.now.plan.rows }
        requires has { has_session (site_of self.now.plan self.now.here tenant) session ≡ true }
        ensures answer { result.answer ≡ Some (refused_with session op (session_state_at self.now tenant session).op refusal) }
        ensures letters { result.letters.items ≡ [] }
        ensures transfer { result.transfer ≡ None }
        ensures fact { result.fact ≡ None }
    {
        let last = self.last_op(tenant, session);
        Output::told(self.alloc, refused_answer(session, op, last, refusal))
    }

    // The session has the operation from now on, and its first messages go out.
    fn begin(
        &mut self,
        tenant: u8,
        session: u32,
        operation: Operation,
        messages: Messages,
    ) -> Result<Output, OutOfMemory>
        requires tenant { tenant < length self.old.plan.rows }
        requires has { has_session (site_of self.old.plan self.old.here tenant) session ≡ true }
        requires number { (session_state_at self.old tenant session).op < greatest_op }
        ensures begins { IfOk result (λ out. HasBegunWith self.old tenant session operation messages out self.new) }
    {
        let letters = messages.to_vec(self.alloc)?;
        let run = self.session_states[tenant as usize].begin(
            session_state_place(session),
            operation,
        );
        Ok(Output {
            answer: None,
            letters,
            transfer: None,
            fact: begun_fact(tenant, session as u8, run),
        })
    }

    // The session has begun the operation, unless memory was wanting.
    fn start(
        &mut self,
        tenant: u8,
        session: u32,
        began: Result<(Operation, Messages), BeginRefused>,
    ) -> Result<Output, OutOfMemory>
        requires tenant { tenant < length self.old.plan.rows }
        requires has { has_session (site_of self.old.plan self.old.here tenant) session ≡ true }
        requires number { (session_state_at self.old tenant session).op < greatest_op }
        requires quorum { ¬ IsErrOf began BeginRefused.NoQuorum }
        ensures starts { IfOk result (λ out. Starts self.old tenant session began out self.new) }
    {
        match began {
            Ok((operation, messages)) => self.begin(tenant, session, operation, messages),
            Err(BeginRefused::NoQuorum) => unreachable!(),
            Err(BeginRefused::Memory(refused)) => Err(refused),
        }
    }

    // What the session's next operation begins with.
    fn next(&self, tenant: u8, session: u32) -> Next
        requires tenant { tenant < length self.now.plan.rows }
        requires has { has_session (site_of self.now.plan self.now.here tenant) session ≡ true }
        requires number { (session_state_at self.now tenant session).op < greatest_op }
        ensures who { result.who ≡ record { tenant = tenant; session = session; op = (session_state_at self.now tenant session).op + 1 } }
        ensures floor { result.floor ≡ (session_state_at self.now tenant session).floor }
        ensures up { servers result.up ≡ session_state_aim self.now.plan.grid (session_state_at self.now tenant session) }
    {
        let session_state = &self.session_states[tenant as usize].items[session_state_place(
            session,
        )];
        Next {
            who: Who {
                tenant,
                session: session as u8,
                op: session_state.op + 1,
            },
            floor: session_state.floor,
            up: aim(self.plan.grid(), session_state.row, session_state.column),
        }
    }

    // A request to write.
    fn write(
        &mut self,
        tenant: u8,
        op: u32,
        session: u32,
        volume: u32,
        file: u32,
        bytes: &Bytes,
    ) -> Result<Output, OutOfMemory>
        requires tenant { tenant < length self.old.plan.rows }
        requires goes { admission_at self.old tenant session op true ≡ Goes }
        ensures acts { IfOk result (λ out. Acts self.old tenant (asks op (Line.Write session volume file bytes.now)) out self.new) }
    {
        if let Some(word) = self.write_refusal(tenant, session, volume, file, bytes) {
            return Ok(self.refused(tenant, session, op, word));
        }
        let next = self.next(tenant, session);
        let id = FileId {
            tenant,
            volume,
            file,
        };
        let began = Operation::write(
            self.alloc,
            self.plan.grid(),
            next.who,
            next.floor,
            id,
            bytes,
            next.up,
        );
        self.start(tenant, session, began)
    }

    // A request to read.
    fn read(
        &mut self,
        tenant: u8,
        op: u32,
        session: u32,
        volume: u32,
        file: u32,
    ) -> Result<Output, OutOfMemory>
        requires tenant { tenant < length self.old.plan.rows }
        requires goes { admission_at self.old tenant session op true ≡ Goes }
        ensures acts { IfOk result (λ out. Acts self.old tenant (asks op (Line.Read session volume file)) out self.new) }
    {
        if let Some(word) = self.file_refusal(tenant, session, volume, file) {
            return Ok(self.refused(tenant, session, op, word));
        }
        let next = self.next(tenant, session);
        let id = FileId {
            tenant,
            volume,
            file,
        };
        let began = Operation::read(
            self.alloc,
            self.plan.grid(),
            next.who,
            next.floor,
            id,
            next.up,
        );
        self.start(tenant, session, began)
    }

    // A request to list.
    fn list(
        &mut self,
        tenant: u8,
        op: u32,
        session: u32,
        volume: u32,
    ) -> Result<Output, OutOfMemory>
        requires tenant { tenant < length self.old.plan.rows }
        requires goes { admission_at self.old tenant session op true ≡ Goes }
        ensures acts { IfOk result (λ out. Acts self.old tenant (asks op (Line.List session volume)) out self.new) }
    {
        if let Some(word) = self.volume_refusal(tenant, session, volume) {
            return Ok(self.refused(tenant, session, op, word));
        }
        let next = self.next(tenant, session);
        let files = self.files(tenant, volume);
        let began = Operation::list(
            self.alloc,
            self.plan.grid(),
            next.who,
            next.floor,
            volume,
            files,
            next.up,
        );
        self.start(tenant, session, began)
    }

    // A request to give the operation up.
    fn abandon(&mut self, tenant: u8, op: u32, session: u32) -> Output
        requires tenant { tenant < length self.old.plan.rows }
        requires goes { admission_at self.old tenant session op false ≡ Goes }
        ensures { Acts self.old tenant (asks op (Line.Abandon session)) result self.new }
    {
        self.session_states[tenant as usize].abandon(session_state_place(session));
        Output::told(self.alloc, Answer::Gone { session, op })
    }

    // A line of the tenant that its number lets go.
    fn go(&mut self, tenant: u8, op: u32, line: &Line) -> Result<Output, OutOfMemory>
        requires tenant { tenant < length self.old.plan.rows }
        requires goes { MayGo self.old tenant op line.now }
        ensures acts { IfOk result (λ out. Acts self.old tenant (asks op line.now) out self.new) }
    {
        match line {
            Line::Write {
                session,
                volume,
                file,
                bytes,
            } => self.write(tenant, op, *session, *volume, *file, bytes),
            Line::Read {
                session,
                volume,
                file,
            } => self.read(tenant, op, *session, *volume, *file),
            Line::List { session, volume } => self.list(tenant, op, *session, *volume),
            Line::Abandon { session } => Ok(self.abandon(tenant, op, *session)),
            _ => Ok(Output::told(self.alloc, Answer::Bad)),
        }
    }

    // A line of the tenant with the number that its operation is to have.
    pub(crate) fn request(
        &mut self,
        tenant: u8,
        op: u32,
        line: &Line,
    ) -> Result<Output, OutOfMemory>
        requires { tenant < length self.old.plan.rows }
        ensures acts { IfOk result (λ out. Acts self.old tenant (asks op line.now) out self.new) }
    {
        let Some((session, begins)) = asked(line) else {
            return Ok(Output::told(self.alloc, Answer::Bad));
        };
        match self.admission(tenant, session, op, begins)? {
            Admission::Tells(answer) => Ok(Output::told(self.alloc, answer)),
            Admission::Passes => Ok(Output::nothing(self.alloc)),
            Admission::Goes => self.go(tenant, op, line),
        }
    }
}
