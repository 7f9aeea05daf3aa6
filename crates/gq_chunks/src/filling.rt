//! A node that lacks chunks is given them by its peers, and gives its own to one that does.

ghost use Rattle.std.specs.Prelude.{◌≡◌, ◌⊎◌, ◌<◌, ◌++◌, [], true, false, length, slice_get, Some, IfOk, IfSome, IfErr, OnOk};
ghost use Rattle.gq_journal.specs.Batches.{lines_text};
ghost use Rattle.gq_text.specs.Canonical.{IsPlan};
ghost use Rattle.gq_depot.specs.Seeking.{Sought, sought_of, AreAsks};
ghost use Rattle.gq_depot.specs.declared.depot.Depot.{Depot};
ghost use Rattle.gq_chunks.specs.PeerLines.{saying_of, Found, Gives};
ghost use Rattle.gq_chunks.specs.Having.{chunks_of};
ghost use Rattle.gq_chunks.specs.Machines.{Adds, may_answer, fact_lines, FactStands, IsShelfRefusal, AnswersPeer, AddsAsks, AsksOfOne, AddsFacts, FillsDone, GivenAs, Fed, Unfed, Waits, SaidBy, Ticks};
ghost use Rattle.gq_chunks.specs.Search.{seeks_of, Hears, IsGiven, IsHeard, IsSameSearch, IsSettled, OnlyGivenAreFilled, SearchHears};

use crate::machine::fault_of;
use crate::peers::peer_in_row;
use crate::saying::{put_ask_lines, put_peer_answer};
use crate::search::{Column, Turn};
use crate::{ChunkFact, ChunkMachine, ChunkRequest, PeerLine};
use bytes::Bytes;
use gq_depot::{Ask, Filling, ListedChunk};
use gq_grid::MOST_SERVERS;
use gq_keeper::Fault;
use gq_memory::OutOfMemory;
use gq_shelf::{Shelf, ShelfFault};

/// What comes of a content that a peer gives.
#[derive(Drop)]
pub(crate) enum Given {
    /// It was taken, or passed over.
    Taken(Option<ChunkFact>),
    /// The shelf has no space for it.
    NoSpace,
}

impl<S: Shelf + Drop> ChunkMachine<S> {
    // Does this for the tenant.
    fn filled(&mut self, tenant: u8, filling: Filling) -> Result<Option<ChunkFact>, Fault>
        requires { tenant < length self.old.depots.depots.items }
        ensures search { self.new.search ≡ self.old.search }
        ensures done { IfOk result (λ fact. FillsDone (chunks_of S.noted self.old) tenant filling fact (chunks_of S.noted self.new)) }
        ensures refused { IfErr result (λ fault. IsShelfRefusal fault (S.noted self.old.depots.shelf) (S.noted self.new.depots.shelf)) }
    {
        match self.depots.fill(self.alloc, tenant as usize, filling) {
            Ok(fact) => Ok(fact),
            Err(fault) => Err(fault_of(fault)),
        }
    }

    // Does this for the tenant, and appends the line of its fact.
    fn fill(&mut self, tenant: u8, filling: Filling, facts: &mut Vec<u8>) -> Result<(), Fault>
        requires tenant { tenant < length self.old.plan.rows }
        requires there { tenant < length self.old.depots.depots.items }
        requires sound { IsPlan self.old.plan }
        ensures search { self.new.search ≡ self.old.search }
        ensures done { OnOk result (AddsFacts (chunks_of S.noted self.old) tenant filling facts.old.items facts.new.items (chunks_of S.noted self.new)) }
        ensures refused { IfErr result (λ fault. IsShelfRefusal fault (S.noted self.old.depots.shelf) (S.noted self.new.depots.shelf)) }
    {
        let fact = self.filled(tenant, filling)?;
        self.put_fact(tenant, &fact, facts)?;
        Ok(())
    }

    // A peer gives this for the tenant. Where the shelf has no space for it nothing changes.
    fn given(&mut self, tenant: u8, gift: Filling) -> Result<Given, Fault>
        requires { tenant < length self.old.depots.depots.items }
        ensures search { self.new.search ≡ self.old.search }
        ensures given { IfOk result (λ given. GivenAs (chunks_of S.noted self.old) tenant gift given (chunks_of S.noted self.new)) }
        ensures refused { IfErr result (λ fault. IsShelfRefusal fault (S.noted self.old.depots.shelf) (S.noted self.new.depots.shelf)) }
    {
        match self.depots.fill(self.alloc, tenant as usize, gift) {
            Ok(fact) => Ok(Given::Taken(fact)),
            Err(ShelfFault::Full) => Ok(Given::NoSpace),
            Err(fault) => Err(fault_of(fault)),
        }
    }

    // Asks this of the peer in that row, about the tenant.
    fn put_asks(
        &self,
        tenant: u8,
        row: usize,
        asks: &[Ask],
        told: &mut Vec<u8>,
    ) -> Result<(), OutOfMemory>
        requires { tenant < length self.now.plan.rows }
        ensures { (sought : Sought) → AreAsks sought asks.now → OnOk result (AddsAsks (chunks_of S.noted self.now) tenant told.old.items told.new.items) }
    {
        let Some(to) = peer_in_row(&self.plan, self.node, &self.lost, row) else {
            return Ok(());
        };
        put_ask_lines(
            told,
            &self.plan,
            self.node,
            to,
            tenant,
            self.depots.losses,
            asks,
        )
    }

    // Whether a node is answered about the tenant, whose plan tells so many losses of the column.
    fn may_answer(&self, tenant: u8, losses: u64) -> bool
        requires { tenant < length self.now.depots.depots.items }
        ensures { result ≡ may_answer (chunks_of S.noted self.now) tenant losses }
    {
        !self.depots.depots[tenant as usize].lacks && losses <= self.depots.losses
    }

    // A peer asks about the tenant what the tenant might ask, and is told what the tenant would be.
    fn tell_peer(
        &mut self,
        tenant: u8,
        from: u16,
        request: ChunkRequest,
        facts: &mut Vec<u8>,
        told: &mut Vec<u8>,
    ) -> Result<(), Fault>
        requires tenant { tenant < length self.old.plan.rows }
        requires there { tenant < length self.old.depots.depots.items }
        requires sound { IsPlan self.old.plan }
        ensures search { self.new.search ≡ self.old.search }
        ensures took { OnOk result (Adds (λ old. AnswersPeer true old tenant from request) (chunks_of S.noted self.old) facts.old.items facts.new.items told.old.items told.new.items (chunks_of S.noted self.new)) }
        ensures refused { IfErr result (λ fault. IsShelfRefusal fault (S.noted self.old.depots.shelf) (S.noted self.new.depots.shelf)) }
    {
        let answered = self.answer(tenant, request)?;
        self.put_fact(tenant, &answered.fact, facts)?;
        put_peer_answer(told, &self.plan, self.node, from, tenant, answered.answer)?;
        Ok(())
    }

    // The same, where a peer may be told so.
    fn answer_peer(
        &mut self,
        tenant: u8,
        from: u16,
        losses: u64,
        request: ChunkRequest,
        facts: &mut Vec<u8>,
        told: &mut Vec<u8>,
    ) -> Result<(), Fault>
        requires tenant { tenant < length self.old.plan.rows }
        requires there { tenant < length self.old.depots.depots.items }
        requires sound { IsPlan self.old.plan }
        ensures search { self.new.search ≡ self.old.search }
        ensures took { OnOk result (Adds (λ old. AnswersPeer (may_answer old tenant losses) old tenant from request) (chunks_of S.noted self.old) facts.old.items facts.new.items told.old.items told.new.items (chunks_of S.noted self.new)) }
        ensures refused { IfErr result (λ fault. IsShelfRefusal fault (S.noted self.old.depots.shelf) (S.noted self.new.depots.shelf)) }
    {
        if !self.may_answer(tenant, losses) {
            return Ok(());
        }
        self.tell_peer(tenant, from, request, facts, told)
    }

    // Whether it is the tenant whose chunks are sought.
    fn seeks_of(&self, tenant: u8) -> bool
        requires { tenant < length self.now.depots.depots.items }
        ensures { result ≡ seeks_of tenant self.now.depots.depots.items self.now.search }
    {
        tenant as usize == self.search.tenant && self.depots.depots[tenant as usize].lacks
    }

    // What is asked for behind a listing of the tenant's session.
    fn listed(
        &mut self,
        tenant: u8,
        session: u32,
        after: u64,
        is_all: bool,
        found: &[ListedChunk],
        told: &mut Vec<u8>,
    ) -> Result<(), OutOfMemory>
        requires tenant { tenant < length self.old.plan.rows }
        requires there { tenant < length self.old.depots.depots.items }
        ensures same { (chunks_of S.noted self.new) ≡ (chunks_of S.noted self.old) }
        ensures asks { OnOk result (AddsAsks (chunks_of S.noted self.old) tenant told.old.items told.new.items) }
        ensures hears { (depot : Depot) → slice_get self.new.depots.depots.items tenant ≡ Some depot → OnOk result (Hears tenant self.new.depots.depots.items self.old.search self.new.search (IsHeard depot session after is_all found.now self.old.search self.new.search)) }
    {
        if !self.seeks_of(tenant) {
            return Ok(());
        }
        let depot = &self.depots.depots[tenant as usize];
        let asks = self
            .search
            .hear_listing(self.alloc, depot, session, after, is_all, found)?;
        self.put_asks(tenant, self.search.row, asks.as_slice(), told)
    }

    // What is asked for once the content of the tenant's session and number came, or won't come.
    fn settled(
        &mut self,
        tenant: u8,
        session: u32,
        number: u64,
        is_spoilt: bool,
        told: &mut Vec<u8>,
    ) -> Result<(), OutOfMemory>
        requires tenant { tenant < length self.old.plan.rows }
        requires there { tenant < length self.old.depots.depots.items }
        ensures same { (chunks_of S.noted self.new) ≡ (chunks_of S.noted self.old) }
        ensures asks { OnOk result (AddsAsks (chunks_of S.noted self.old) tenant told.old.items told.new.items) }
        ensures hears { OnOk result (Hears tenant self.new.depots.depots.items self.old.search self.new.search (IsSettled session number is_spoilt self.old.search self.new.search)) }
    {
        if !self.seeks_of(tenant) {
            return Ok(());
        }
        let sessions = self.depots.depots[tenant as usize].stock.sessions.len();
        let asks = self
            .search
            .settle(self.alloc, sessions, session, number, is_spoilt)?;
        self.put_asks(tenant, self.search.row, asks.as_slice(), told)
    }

    // A peer tells which chunks the session has.
    fn hear_listing(
        &mut self,
        tenant: u8,
        session: u32,
        after: u64,
        floor: u64,
        is_all: bool,
        found: &[ListedChunk],
        facts: &mut Vec<u8>,
        told: &mut Vec<u8>,
    ) -> Result<(), Fault>
        requires tenant { tenant < length self.old.plan.rows }
        requires there { tenant < length self.old.depots.depots.items }
        requires sound { IsPlan self.old.plan }
        ensures hears { OnOk result (SearchHears (Found session after floor is_all found.now) tenant self.new.depots.depots.items self.old.search self.new.search) }
        ensures took { OnOk result (Adds (λ old. Fed old tenant (Filling.Raise session floor)) (chunks_of S.noted self.old) facts.old.items facts.new.items told.old.items told.new.items (chunks_of S.noted self.new)) }
        ensures refused { IfErr result (λ fault. IsShelfRefusal fault (S.noted self.old.depots.shelf) (S.noted self.new.depots.shelf)) }
    {
        self.fill(tenant, Filling::Raise { session, floor }, facts)?;
        self.listed(tenant, session, after, is_all, found, told)?;
        Ok(())
    }

    // A content that a peer gave was taken, or passed over.
    fn took_content(
        &mut self,
        tenant: u8,
        session: u32,
        number: u64,
        fact: &Option<ChunkFact>,
        facts: &mut Vec<u8>,
        told: &mut Vec<u8>,
    ) -> Result<(), OutOfMemory>
        requires tenant { tenant < length self.old.plan.rows }
        requires there { tenant < length self.old.depots.depots.items }
        requires sound { IsPlan self.old.plan }
        ensures same { (chunks_of S.noted self.new) ≡ (chunks_of S.noted self.old) }
        ensures kept { OnOk result (facts.new.items ≡ facts.old.items ++ lines_text (fact_lines self.old.plan tenant fact.now)) }
        ensures stands { OnOk result (FactStands self.old.plan tenant fact.now) }
        ensures hears { OnOk result (Hears tenant self.new.depots.depots.items self.old.search self.new.search (IsSettled session number false self.old.search self.new.search)) }
        ensures asks { OnOk result (AddsAsks (chunks_of S.noted self.old) tenant told.old.items told.new.items) }
    {
        self.put_fact(tenant, fact, facts)?;
        self.settled(tenant, session, number, false, told)
    }

    // A peer gives a content. Where the shelf has no space for it, it is asked for again later.
    fn hear_content(
        &mut self,
        tenant: u8,
        session: u32,
        number: u64,
        bytes: Bytes,
        facts: &mut Vec<u8>,
        told: &mut Vec<u8>,
    ) -> Result<(), Fault>
        requires tenant { tenant < length self.old.plan.rows }
        requires there { tenant < length self.old.depots.depots.items }
        requires sound { IsPlan self.old.plan }
        ensures hears { OnOk result (SearchHears (Gives session number bytes) tenant self.new.depots.depots.items self.old.search self.new.search) }
        ensures took { OnOk result (Adds (λ old facts told new. Fed old tenant (Filling.Give session number bytes) facts told new ⊎ Unfed old tenant facts told new) (chunks_of S.noted self.old) facts.old.items facts.new.items told.old.items told.new.items (chunks_of S.noted self.new)) }
        ensures refused { IfErr result (λ fault. IsShelfRefusal fault (S.noted self.old.depots.shelf) (S.noted self.new.depots.shelf)) }
    {
        let given = Filling::Give {
            session,
            number,
            bytes,
        };
        match self.given(tenant, given)? {
            Given::Taken(fact) => {
                self.took_content(tenant, session, number, &fact, facts, told)?;
                Ok(())
            }
            Given::NoSpace => {
                self.search.wait_for_space();
                Ok(())
            }
        }
    }

    // A content won't come.
    fn hear_none(
        &mut self,
        tenant: u8,
        session: u32,
        number: u64,
        is_spoilt: bool,
        facts: &mut Vec<u8>,
        told: &mut Vec<u8>,
    ) -> Result<(), OutOfMemory>
        requires tenant { tenant < length self.old.plan.rows }
        requires there { tenant < length self.old.depots.depots.items }
        ensures hears { OnOk result (Hears tenant self.new.depots.depots.items self.old.search self.new.search (IsSettled session number is_spoilt self.old.search self.new.search)) }
        ensures took { OnOk result (Adds (λ old. Waits old tenant) (chunks_of S.noted self.old) facts.old.items facts.new.items told.old.items told.new.items (chunks_of S.noted self.new)) }
    {
        let _facts = facts.len();
        self.settled(tenant, session, number, is_spoilt, told)
    }

    /// A peer says this about the tenant.
    pub(crate) fn hear(
        &mut self,
        tenant: u8,
        from: u16,
        line: PeerLine,
        facts: &mut Vec<u8>,
        told: &mut Vec<u8>,
    ) -> Result<(), Fault>
        requires tenant { tenant < length self.old.plan.rows }
        requires there { tenant < length self.old.depots.depots.items }
        requires sound { IsPlan self.old.plan }
        ensures hears { OnOk result (SearchHears (saying_of line) tenant self.new.depots.depots.items self.old.search self.new.search) }
        ensures took { OnOk result (Adds (λ old. SaidBy (saying_of line) old tenant from) (chunks_of S.noted self.old) facts.old.items facts.new.items told.old.items told.new.items (chunks_of S.noted self.new)) }
        ensures refused { IfErr result (λ fault. IsShelfRefusal fault (S.noted self.old.depots.shelf) (S.noted self.new.depots.shelf)) }
    {
        match line {
            PeerLine::Seeks {
                losses,
                session,
                after,
            } => {
                let request = ChunkRequest::List { session, after };
                self.answer_peer(tenant, from, losses, request, facts, told)
            }
            PeerLine::Wants { session, number } => {
                let request = ChunkRequest::Get {
                    session,
                    number,
                    from: 0,
                    length: u64::MAX,
                };
                self.answer_peer(tenant, from, 0, request, facts, told)
            }
            PeerLine::Found {
                session,
                after,
                floor,
                is_all,
                chunks,
            } => self.hear_listing(
                tenant,
                session,
                after,
                floor,
                is_all,
                chunks.as_slice(),
                facts,
                told,
            ),
            PeerLine::Gives {
                session,
                number,
                bytes,
            } => self.hear_content(tenant, session, number, bytes, facts, told),
            PeerLine::Misses { session, number } => {
                Ok(self.hear_none(tenant, session, number, false, facts, told)?)
            }
            PeerLine::Spoilt { session, number } => {
                Ok(self.hear_none(tenant, session, number, true, facts, told)?)
            }
        }
    }

    // The rows of its column.
    fn column(&self) -> Column {
        let cols = self.plan.grid().cols();
        Column {
            rows: self.plan.grid().rows(),
            own: self.node as usize % MOST_SERVERS / cols,
        }
    }

    // What is done at a tick.
    fn turn(&mut self) -> Result<Turn, OutOfMemory>
        ensures same { (chunks_of S.noted self.new) ≡ (chunks_of S.noted self.old) }
        ensures ends { IfOk result (λ turn. turn.ends ≡ true → IsGiven self.new.depots.depots.items self.new.search) }
        ensures asks { IfOk result (λ turn. AreAsks (sought_of self.new.search.seeking) turn.asks.items) }
    {
        let column = self.column();
        self.search
            .tick(self.alloc, self.depots.depots.as_slice(), column)
    }

    // The tenant at this place, if it is one of the plan.
    fn tenant_at(&self, place: usize) -> Option<u8>
        ensures tenant { IfSome result (λ tenant. tenant < length self.now.plan.rows) }
        ensures there { IfSome result (λ tenant. tenant < length self.now.depots.depots.items) }
        ensures place { IfSome result (λ tenant. tenant ≡ place) }
    {
        if place < self.depots.depots.len() && place < self.plan.tenants() {
            Some(place as u8)
        } else {
            None
        }
    }

    // Asks the next peer for chunks that are damaged, if some are known.
    fn ask_for_damaged(&mut self, told: &mut Vec<u8>) -> Result<(), OutOfMemory>
        ensures same { (chunks_of S.noted self.new) ≡ (chunks_of S.noted self.old) }
        ensures asks { OnOk result (AsksOfOne (chunks_of S.noted self.old) told.old.items told.new.items) }
    {
        let rows = self.plan.grid().rows();
        let Some(call) = self.mending.tick(self.alloc, rows)? else {
            return Ok(());
        };
        let Some(tenant) = self.tenant_at(call.tenant) else {
            return Ok(());
        };
        self.put_asks(tenant, call.row, call.asks.as_slice(), told)
    }

    /// At a tick it asks once more for what did not come, or is filled. Where nothing is asked so, it asks for chunks that are damaged.
    pub(crate) fn tick(&mut self, facts: &mut Vec<u8>, told: &mut Vec<u8>) -> Result<(), Fault>
        requires { IsPlan self.old.plan }
        ensures filled { OnOk result (OnlyGivenAreFilled self.old.depots.depots.items self.new.depots.depots.items self.new.search) }
        ensures took { OnOk result (Adds Ticks (chunks_of S.noted self.old) facts.old.items facts.new.items told.old.items told.new.items (chunks_of S.noted self.new)) }
        ensures refused { IfErr result (λ fault. IsShelfRefusal fault (S.noted self.old.depots.shelf) (S.noted self.new.depots.shelf)) }
    {
        let Turn { ends, asks } = self.turn()?;
        if asks.is_empty() && !ends {
            self.ask_for_damaged(told)?;
            return Ok(());
        }
        let Some(tenant) = self.tenant_at(self.search.tenant) else {
            return Ok(());
        };
        if ends {
            return self.fill(tenant, Filling::End, facts);
        }
        self.put_asks(tenant, self.search.row, asks.as_slice(), told)?;
        Ok(())
    }
}
