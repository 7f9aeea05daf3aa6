//! What comes of each request.
//!
//! A tenant without room for chunks is answered too: what he is told is true, and a case of its own would have to be said in
//! each definition. Each chunk is charged 512 bytes beside its own, as it takes a node's memory and a line of the journal,
//! which a start holds too. A start refuses nothing for lack of room.
//!
//! Of what is forgotten while chunks are lacked each number is noted, and not only those that are absent: a chunk that is there
//! may be given once more, by a line that comes late. A forget is refused where too much is noted, since each run that is noted
//! takes memory until the node is filled.

ghost use Rattle.std.specs.Prelude.{◌≡◌, ◌≢◌, ◌+◌, ◌<◌, ◌≤◌, ℕ, Bool, List, Some, None, not, length, IfOk, IfErr, OnOk, IsSome, option_map, slice_get};
ghost use Rattle.gq_shelf.specs.Notes.{IsClean, GoesOn, Noted};
ghost use Rattle.gq_shelf.specs.declared.extent.Extent.{Extent};
ghost use Rattle.gq_ledger.specs.Ledgers.{book_of};
ghost use Rattle.gq_stock.specs.Finding.{IsRefused};
ghost use Rattle.gq_depot.specs.Answers.{ListedAs, Reaches};

use crate::depot::{run_bytes, same_place};
use crate::{
    Answered, ChunkAnswer, ChunkFact, ChunkRequest, Depot, ListedChunk, MOST_CHUNK, MOST_FLOOR,
    MOST_GONE, MOST_LISTED,
};
use bytes::Bytes;
use gq_memory::{GrowVec, OutOfMemory};
use gq_shelf::{Shelf, ShelfFault};
use gq_stock::{Found, Keeping, Run, Session};
use std::alloc::Global;

// What is told, of what nothing has to be remembered.
fn only(answer: ChunkAnswer) -> Answered
    ensures answer { result.answer ≡ answer }
    ensures fact { result.fact ≡ None }
{
    Answered { answer, fact: None }
}

// Whether a chunk of the number, or of a greater one, is there.
fn reaches(session: &Session, number: u64) -> bool
    ensures { Reaches (book_of session.now.chunks) number result }
{
    session.get(number).is_some() || session.after(number).is_some()
}

// The first chunks above a number, and whether these are all.
fn listed(
    alloc: Global,
    session: &Session,
    after: u64,
) -> Result<(Vec<ListedChunk>, bool), OutOfMemory>
    ensures { IfOk result (λ x. ListedAs (book_of session.now.chunks) after x.0.items x.1) }
{
    let mut chunks = Vec::new(alloc);
    let mut last = after;
    while let Some((number, chunk)) = session.after(last) {
        if chunks.len() == MOST_LISTED {
            return Ok((chunks, false));
        }
        chunks.grow(ListedChunk {
            number,
            size: chunk.place.len() as u64,
        })?;
        last = number;
    }
    Ok((chunks, true))
}

impl Depot {
    ghost use Rattle.gq_stock.specs.Finding.{FoundAs};
    ghost use Rattle.gq_stock.specs.Held.{held_by};
    ghost use Rattle.gq_stock.specs.Stocks.{DamagedIn};
    ghost use Rattle.gq_depot.specs.Depots.{LeadsTo, StandsIn, FactIsSure, ReadsFact, StaysWithin, in_memory};
    ghost use Rattle.gq_depot.specs.Answers.{In, is_told, KeptAt, KeepTells, KeepGives, FoundAt, GetTells, GivesFor, told_if, may_be, is_full, ForgotAt, ForgetAt, ForgetTells, ForgetGivesAt, ForgetGives, ListedAt, ListTells, RoomTells, Tells, Gives, DamageIs};

    /// The fact of the chunk of this number, in the session at this place, which a start needs. Where memory is wanting nothing is made.
    pub fn fact_at(&self, place: usize, session: u32, number: u64) -> Result<ChunkFact, OutOfMemory>
        requires there { place < length self.now.stock.sessions.items }
        requires chunk { In self.now.stock.sessions.items place (λ session. IsSome ((book_of session.chunks).at number)) }
        ensures { IfOk result (λ fact. In self.now.stock.sessions.items place (λ s. StandsIn (book_of s.chunks) session number fact)) }
    {
        let Some(chunk) = self.stock.sessions[place].get(number) else {
            unreachable!()
        };
        Ok(ChunkFact::Put {
            session,
            number,
            is_sure: chunk.is_sure,
            place: same_place(&chunk.place)?,
        })
    }

    // The floor of the session at this place.
    pub(crate) fn floor_at(&self, place: usize) -> u64
        requires { place < length self.now.stock.sessions.items }
        ensures { In self.now.stock.sessions.items place (λ session. result ≡ (book_of session.chunks).floor) }
    {
        self.stock.sessions[place].floor()
    }

    // What must not be forgotten of a content that was to be kept: where a new one is.
    fn fact_of(
        &mut self,
        place: usize,
        session: u32,
        number: u64,
        told: Keeping,
    ) -> Result<Option<ChunkFact>, OutOfMemory>
        requires there { place < length self.old.stock.sessions.items }
        requires chunk { told ≡ Keeping.New → In self.old.stock.sessions.items place (λ session. IsSome ((book_of session.chunks).at number)) }
        ensures gives { IfOk result (λ fact. In self.old.stock.sessions.items place (λ s. GivesFor told (book_of s.chunks) session number fact)) }
        ensures stock { self.new.stock ≡ self.old.stock }
        ensures lacks { self.new.lacks ≡ self.old.lacks }
        ensures gone { self.new.gone.items ≡ self.old.gone.items }
    {
        if told != Keeping::New {
            return Ok(None);
        }
        self.note(place, number);
        Ok(Some(self.fact_at(place, session, number)?))
    }

    // A content that is not too long is to be kept in the session at this place.
    fn keep_at<S: Shelf>(
        &mut self,
        shelf: &mut S,
        losses: u64,
        place: usize,
        session: u32,
        number: u64,
        bytes: Bytes,
    ) -> Result<Answered, ShelfFault>
        requires there { place < length self.old.stock.sessions.items }
        requires number { session ≡ place + 1 }
        requires long { length bytes ≤ MOST_CHUNK }
        ensures tells { (written : Extent → List ℕ) → IfOk result (λ a. IsClean written (S.noted shelf.new) → KeptAt written self.old place session number bytes losses a.answer) }
        ensures gives { (written : Extent → List ℕ) → IfOk result (λ a. IsClean written (S.noted shelf.new) → KeepGives written session number (not self.old.lacks) bytes a.answer a.fact) }
        ensures leads { IfOk result (λ a. LeadsTo self.old a.fact self.new) }
        ensures sure { IfOk result (λ a. FactIsSure a.fact (S.noted shelf.new)) }
        ensures reads { IfOk result (λ a. ReadsFact (length self.old.stock.sessions.items) a.fact) }
        ensures memory { IfOk result (λ a. StaysWithin self.old self.new) }
        ensures damaged { IfOk result (λ a. DamageIs self.old (S.noted shelf.old) (S.noted shelf.new) a.answer) }
        ensures refused { IfErr result (λ fault. IsRefused fault (S.noted shelf.old) (S.noted shelf.new)) }
        ensures goes_on { GoesOn (S.noted shelf.old) (S.noted shelf.new) }
    {
        let free = self.stock.free();
        let floor = self.floor_at(place);
        let is_sure = !self.lacks;
        let told = self.stock.keep(shelf, place, number, bytes, is_sure)?;
        let fact = self.fact_of(place, session, number, told)?;
        Ok(Answered {
            answer: ChunkAnswer::Kept {
                session,
                number,
                told,
                losses,
                floor,
                free,
            },
            fact,
        })
    }

    // A content is to be kept.
    fn keep<S: Shelf>(
        &mut self,
        shelf: &mut S,
        losses: u64,
        session: u32,
        number: u64,
        bytes: Bytes,
    ) -> Result<Answered, ShelfFault>
        ensures tells { (written : Extent → List ℕ) → IfOk result (λ a. IsClean written (S.noted shelf.new) → KeepTells written self.old session number bytes losses a.answer) }
        ensures gives { (written : Extent → List ℕ) → IfOk result (λ a. IsClean written (S.noted shelf.new) → KeepGives written session number (not self.old.lacks) bytes a.answer a.fact) }
        ensures leads { IfOk result (λ a. LeadsTo self.old a.fact self.new) }
        ensures sure { IfOk result (λ a. FactIsSure a.fact (S.noted shelf.new)) }
        ensures reads { IfOk result (λ a. ReadsFact (length self.old.stock.sessions.items) a.fact) }
        ensures memory { IfOk result (λ a. StaysWithin self.old self.new) }
        ensures damaged { IfOk result (λ a. DamageIs self.old (S.noted shelf.old) (S.noted shelf.new) a.answer) }
        ensures refused { IfErr result (λ fault. IsRefused fault (S.noted shelf.old) (S.noted shelf.new)) }
        ensures goes_on { GoesOn (S.noted shelf.old) (S.noted shelf.new) }
    {
        let Some(place) = self.place_of(session) else {
            return Ok(only(ChunkAnswer::NoSession { session, number }));
        };
        let length = bytes.len();
        if length < 1 || length > MOST_CHUNK {
            return Ok(only(ChunkAnswer::TooLong {
                session,
                number,
                length: length as u64,
            }));
        }
        let answered = self.keep_at(shelf, losses, place, session, number, bytes)?;
        Ok(answered)
    }

    // Whether a chunk of this number is told.
    fn is_told(&self, place: usize, number: u64) -> bool
        requires { place < length self.now.stock.sessions.items }
        ensures { In self.now.stock.sessions.items place (λ session. result ≡ is_told self.now.lacks ((book_of session.chunks).at number)) }
    {
        match self.stock.sessions[place].get(number) {
            Some(chunk) => chunk.is_sure || !self.lacks,
            None => false,
        }
    }

    // The session at this place.
    pub(crate) fn session(&self, place: usize) -> &Session
        requires { place < length self.now.stock.sessions.items }
        ensures { slice_get self.now.stock.sessions.items place ≡ Some result.now }
    {
        &self.stock.sessions[place]
    }

    // What is under the number in the session at this place, told or not.
    fn look_at<S: Shelf>(
        &self,
        shelf: &mut S,
        place: usize,
        number: u64,
    ) -> Result<Found, ShelfFault>
        requires { place < length self.now.stock.sessions.items }
        ensures found { (written : Extent → List ℕ) → IfOk result (λ found. In self.now.stock.sessions.items place (λ session. FoundAs (IsClean written (S.noted shelf.new)) (option_map (held_by written) ((book_of session.chunks).at number)) found)) }
        ensures damaged { IfOk result (λ found. found ≡ Found.Damaged → DamagedIn self.now.stock.sessions.items place number (S.noted shelf.old) (S.noted shelf.new)) }
        ensures refused { IfErr result (λ fault. IsRefused fault (S.noted shelf.old) (S.noted shelf.new)) }
        ensures goes_on { GoesOn (S.noted shelf.old) (S.noted shelf.new) }
    {
        let session = self.session(place);
        let found = session.find(shelf, number)?;
        Ok(found)
    }

    // What is found in the session at this place.
    fn find_at<S: Shelf>(
        &self,
        shelf: &mut S,
        place: usize,
        number: u64,
    ) -> Result<Found, ShelfFault>
        requires { place < length self.now.stock.sessions.items }
        ensures found { (written : Extent → List ℕ) → IfOk result (λ found. In self.now.stock.sessions.items place (λ session. FoundAs (IsClean written (S.noted shelf.new)) (option_map (held_by written) (told_if (is_told self.now.lacks ((book_of session.chunks).at number)) ((book_of session.chunks).at number))) found)) }
        ensures damaged { IfOk result (λ found. found ≡ Found.Damaged → DamagedIn self.now.stock.sessions.items place number (S.noted shelf.old) (S.noted shelf.new)) }
        ensures refused { IfErr result (λ fault. IsRefused fault (S.noted shelf.old) (S.noted shelf.new)) }
        ensures goes_on { GoesOn (S.noted shelf.old) (S.noted shelf.new) }
    {
        if !self.is_told(place, number) {
            return Ok(Found::Nothing);
        }
        let found = self.look_at(shelf, place, number)?;
        Ok(found)
    }

    // A part of a content of the session at this place.
    fn get_at<S: Shelf>(
        &self,
        shelf: &mut S,
        place: usize,
        session: u32,
        number: u64,
        from: u64,
        long: u64,
    ) -> Result<ChunkAnswer, ShelfFault>
        requires there { place < length self.now.stock.sessions.items }
        requires number { session ≡ place + 1 }
        ensures tells { (written : Extent → List ℕ) → IfOk result (λ answer. FoundAt (IsClean written (S.noted shelf.new)) written self.now place session number from long answer) }
        ensures damaged { IfOk result (λ answer. DamageIs self.now (S.noted shelf.old) (S.noted shelf.new) answer) }
        ensures refused { IfErr result (λ fault. IsRefused fault (S.noted shelf.old) (S.noted shelf.new)) }
        ensures goes_on { GoesOn (S.noted shelf.old) (S.noted shelf.new) }
    {
        let found = self.find_at(shelf, place, number)?;
        Ok(ChunkAnswer::Found {
            session,
            number,
            from,
            length: long,
            found,
            lacks: self.lacks,
        })
    }

    // A part of a content.
    fn get<S: Shelf>(
        &self,
        shelf: &mut S,
        session: u32,
        number: u64,
        from: u64,
        long: u64,
    ) -> Result<ChunkAnswer, ShelfFault>
        ensures tells { (written : Extent → List ℕ) → IfOk result (λ answer. GetTells (IsClean written (S.noted shelf.new)) written self.now session number from long answer) }
        ensures damaged { IfOk result (λ answer. DamageIs self.now (S.noted shelf.old) (S.noted shelf.new) answer) }
        ensures refused { IfErr result (λ fault. IsRefused fault (S.noted shelf.old) (S.noted shelf.new)) }
        ensures goes_on { GoesOn (S.noted shelf.old) (S.noted shelf.new) }
    {
        let Some(place) = self.place_of(session) else {
            return Ok(ChunkAnswer::NoSession { session, number });
        };
        let answer = self.get_at(shelf, place, session, number, from, long)?;
        Ok(answer)
    }

    // Numbers of the session at this place are forgotten. Where memory is wanting the depot is given up.
    pub(crate) fn forget_at(
        &mut self,
        place: usize,
        session: u32,
        floor: u64,
        run: Run,
    ) -> Result<ChunkAnswer, OutOfMemory>
        requires there { place < length self.old.stock.sessions.items }
        requires number { session ≡ place + 1 }
        requires within { run.last ≤ floor }
        ensures tells { IfOk result (λ answer. ForgotAt self.new place session run answer) }
        ensures leads { OnOk result (LeadsTo self.old (Some (ChunkFact.Forgot session floor run)) self.new) }
        ensures no_more { OnOk result (in_memory self.new ≤ in_memory self.old) }
    {
        self.note_gone(place, run)?;
        let gone = run_bytes(&self.stock.sessions[place], run);
        self.in_journal = self.in_journal.saturating_sub(gone);
        self.stock.sessions[place].forget(floor, &[run]);
        Ok(ChunkAnswer::Forgot {
            session,
            floor: self.floor_at(place),
            run,
        })
    }

    // Whether the run can't be noted: it has numbers, the server lacks chunks, and as many runs are noted as may be.
    fn is_noted_full(&self, run: Run) -> bool
        ensures { result ≡ is_full self.now run }
    {
        self.lacks && run.first <= run.last && self.gone.len() >= MOST_GONE
    }

    // Whether the floor of the session at this place may be at this number.
    fn may_be(&self, place: usize, floor: u64) -> bool
        requires { place < length self.now.stock.sessions.items }
        ensures { In self.now.stock.sessions.items place (λ session. (is_reached : Bool) × Reaches (book_of session.chunks) floor is_reached × (result ≡ may_be (book_of session.chunks).floor floor is_reached)) }
    {
        let session = &self.stock.sessions[place];
        let is_reached = reaches(session, floor);
        floor <= MOST_FLOOR || floor <= session.floor() || is_reached
    }

    // Numbers of the session at this place are forgotten, if its floor may be at this one, and they can be noted where chunks are lacked.
    fn forget_in(
        &mut self,
        place: usize,
        session: u32,
        floor: u64,
        run: Run,
    ) -> Result<Answered, OutOfMemory>
        requires there { place < length self.old.stock.sessions.items }
        requires number { session ≡ place + 1 }
        requires within { run.last ≤ floor }
        ensures tells { IfOk result (λ a. ForgetAt self.old place session floor run self.new a.answer) }
        ensures gives { IfOk result (λ a. ForgetGivesAt self.old place session floor run a.fact) }
        ensures leads { IfOk result (λ a. LeadsTo self.old a.fact self.new) }
        ensures reads { IfOk result (λ a. ReadsFact (length self.old.stock.sessions.items) a.fact) }
        ensures sure { (noted : Noted) → IfOk result (λ a. FactIsSure a.fact noted) }
        ensures damaged { (old new : Noted) → IfOk result (λ a. DamageIs self.old old new a.answer) }
        ensures memory { IfOk result (λ a. StaysWithin self.old self.new) }
    {
        if !self.may_be(place, floor) {
            return Ok(only(ChunkAnswer::Bad));
        }
        if self.is_noted_full(run) {
            return Ok(only(ChunkAnswer::Lacking { session, floor }));
        }
        Ok(Answered {
            answer: self.forget_at(place, session, floor, run)?,
            fact: Some(ChunkFact::Forgot {
                session,
                floor,
                run,
            }),
        })
    }

    // Numbers are forgotten, of which none may be above the floor.
    fn forget(&mut self, session: u32, floor: u64, run: Run) -> Result<Answered, OutOfMemory>
        ensures tells { IfOk result (λ a. ForgetTells self.old session floor run self.new a.answer) }
        ensures gives { IfOk result (λ a. ForgetGives self.old session floor run a.fact) }
        ensures leads { IfOk result (λ a. LeadsTo self.old a.fact self.new) }
        ensures reads { IfOk result (λ a. ReadsFact (length self.old.stock.sessions.items) a.fact) }
        ensures sure { (noted : Noted) → IfOk result (λ a. FactIsSure a.fact noted) }
        ensures damaged { (old new : Noted) → IfOk result (λ a. DamageIs self.old old new a.answer) }
        ensures memory { IfOk result (λ a. StaysWithin self.old self.new) }
    {
        if run.last > floor {
            return Ok(only(ChunkAnswer::Bad));
        }
        let Some(place) = self.place_of(session) else {
            return Ok(only(ChunkAnswer::NoSession {
                session,
                number: floor,
            }));
        };
        self.forget_in(place, session, floor, run)
    }

    // The numbers of the session at this place.
    fn list_at(
        &self,
        alloc: Global,
        place: usize,
        session: u32,
        after: u64,
    ) -> Result<ChunkAnswer, OutOfMemory>
        requires { place < length self.now.stock.sessions.items }
        ensures { IfOk result (λ answer. ListedAt self.now place session after answer) }
    {
        let chunks = &self.stock.sessions[place];
        let (found, is_all) = listed(alloc, chunks, after)?;
        Ok(ChunkAnswer::Listed {
            session,
            after,
            floor: chunks.floor(),
            chunks: found,
            is_all,
        })
    }

    // The numbers of a session.
    fn list(&self, alloc: Global, session: u32, after: u64) -> Result<ChunkAnswer, OutOfMemory>
        ensures { IfOk result (λ answer. ListTells self.now session after answer) }
    {
        let Some(place) = self.place_of(session) else {
            return Ok(ChunkAnswer::NoSession {
                session,
                number: after,
            });
        };
        self.list_at(alloc, place, session, after)
    }

    // How much room there is.
    fn room(&self, losses: u64) -> ChunkAnswer
        ensures { RoomTells self.now losses result }
    {
        ChunkAnswer::Room {
            used: self.stock.used(),
            allowed: self.stock.allowed,
            losses,
            lacks: self.lacks,
        }
    }

    /// What comes of the request, at a server whose plan tells so many losses of its column. What is told is so where no read was wrong. What is kept of it
    /// is what the fact makes of what there was, if there is a fact; and what that names on the shelf was made sure of there. No more bytes are in memory than
    /// `MOST_FRESH_BYTES`, or than were. It is refused where memory is
    /// wanting, or the shelf refuses a read or a put; the depot is given up then.
    pub fn answer<S: Shelf>(
        &mut self,
        alloc: Global,
        shelf: &mut S,
        losses: u64,
        request: ChunkRequest,
    ) -> Result<Answered, ShelfFault>
        ensures tells { (written : Extent → List ℕ) → IfOk result (λ a. Tells (IsClean written (S.noted shelf.new)) written self.old losses request a.answer self.new) }
        ensures gives { (written : Extent → List ℕ) → IfOk result (λ a. Gives (IsClean written (S.noted shelf.new)) written self.old request a.answer a.fact) }
        ensures leads { IfOk result (λ a. LeadsTo self.old a.fact self.new) }
        ensures sure { IfOk result (λ a. FactIsSure a.fact (S.noted shelf.new)) }
        ensures reads { IfOk result (λ a. ReadsFact (length self.old.stock.sessions.items) a.fact) }
        ensures memory { IfOk result (λ a. StaysWithin self.old self.new) }
        ensures damaged { IfOk result (λ a. DamageIs self.old (S.noted shelf.old) (S.noted shelf.new) a.answer) }
        ensures refused { IfErr result (λ fault. IsRefused fault (S.noted shelf.old) (S.noted shelf.new)) }
        ensures goes_on { GoesOn (S.noted shelf.old) (S.noted shelf.new) }
    {
        match request {
            ChunkRequest::Keep {
                session,
                number,
                bytes,
            } => {
                let answered = self.keep(shelf, losses, session, number, bytes)?;
                Ok(answered)
            }
            ChunkRequest::Get {
                session,
                number,
                from,
                length,
            } => Ok(only(self.get(shelf, session, number, from, length)?)),
            ChunkRequest::Forget {
                session,
                floor,
                run,
            } => Ok(self.forget(session, floor, run)?),
            ChunkRequest::List { session, after } => Ok(only(self.list(alloc, session, after)?)),
            ChunkRequest::Room => Ok(only(self.room(losses))),
        }
    }
}
