//! How a node that lacks chunks gets them: what it asks of which peer, at ticks and as answers come.

ghost use Rattle.std.specs.Prelude.{◌≡◌, ◌⊎◌, ◌||◌, ◌&&◌, ◌==◌, [], true, false, length, slice_get, filter, IfOk, OnOk, if◌then◌else◌};
ghost use Rattle.gq_depot.specs.Answers.{last_of};
ghost use Rattle.gq_depot.specs.Seeking.{sought_of, first_sought, settled, AreAsks};
ghost use Rattle.gq_chunks.specs.Search.{is_through, wanted_of, heard, lacks_in, sessions_in, SoughtOn, IsGiven};

use gq_depot::{Ask, Depot, ListedChunk, Seeking};
use gq_memory::{GrowVec, OutOfMemory};
use std::alloc::Global;

// So often a peer is asked in vain before the next one is.
const MOST_IN_VAIN: u32 = 2;

// So many ticks are passed over behind one at which something was asked, and behind one before which something came.
const WAIT: u32 = 1;

// So many ticks later a content that was spoilt at all peers, or for which there was no space, is asked for once more.
const PAUSE: u32 = 16;

/// How far a node that lacks chunks has come. A start begins it anew, and passes over what is there.
#[derive(Drop)]
pub(crate) struct Search {
    /// The place of the tenant whose chunks are sought.
    pub(crate) tenant: usize,
    /// The row of the node that is asked.
    pub(crate) row: usize,
    // what is sought of the tenant
    pub(crate) seeking: Seeking,
    // whether a content was spoilt, since all of this tenant's are sought
    pub(crate) is_spoilt: bool,
    /// How many contents came, or won't come.
    pub(crate) contents: u64,
    // whether something came since the last tick
    came: bool,
    // how often the peer was asked in vain
    in_vain: u32,
    // how many peers were asked for the tenant
    tried: usize,
    // at so many ticks nothing is asked
    pause: u32,
}

/// How many nodes the column has, and the row of this one.
#[derive(Clone, Copy)]
pub(crate) struct Column {
    pub(crate) rows: usize,
    pub(crate) own: usize,
}

/// What is done at a tick.
#[derive(Drop)]
pub(crate) struct Turn {
    /// Whether all of the tenant was given.
    pub(crate) ends: bool,
    /// What is asked for.
    pub(crate) asks: Vec<Ask>,
}

// Whether the tenant at this place is there, and chunks of it are lacked.
fn lacks_of(depots: &[Depot], tenant: usize) -> bool
    ensures { result ≡ lacks_in (slice_get depots.now tenant) }
{
    tenant < depots.len() && depots[tenant].lacks
}

// How many sessions the tenant at this place has.
fn sessions_of(depots: &[Depot], tenant: usize) -> usize
    ensures { result ≡ sessions_in (slice_get depots.now tenant) }
{
    if tenant < depots.len() {
        depots[tenant].stock.sessions.len()
    } else {
        0
    }
}

// Nothing is done.
fn no_turn(alloc: Global) -> Turn
    ensures ends { result.ends ≡ false }
    ensures asks { result.asks.items ≡ [] }
{
    Turn {
        ends: false,
        asks: Vec::new(alloc),
    }
}

/// The place after this one, of so many; after the last the first.
pub(crate) fn next_of(place: usize, many: usize) -> usize {
    if place < many && many - place > 1 {
        place + 1
    } else {
        0
    }
}

// The place of the next tenant of whom chunks are lacked; the same where there is no other.
fn next_lacking(depots: &[Depot], tenant: usize) -> usize {
    let mut place = tenant;
    for _other in 0..depots.len() {
        place = next_of(place, depots.len());
        if lacks_of(depots, place) {
            return place;
        }
    }
    tenant
}

// The last of these numbers, or that one where there is none.
fn last_of(chunks: &[ListedChunk], after: u64) -> u64
    ensures { result ≡ last_of after chunks.now }
{
    let mut last = after;
    for chunk in chunks {
        last = chunk.number;
    }
    last
}

// Those of the session's chunks that are wanted.
fn wanted(
    alloc: Global,
    depot: &Depot,
    session: u32,
    chunks: &[ListedChunk],
) -> Result<Vec<ListedChunk>, OutOfMemory>
    ensures { IfOk result (λ left. left.items ≡ wanted_of depot.now session chunks.now) }
{
    let mut left = Vec::new(alloc);
    for chunk in chunks {
        if depot.wants(session, chunk.number) {
            left.grow(*chunk)?;
        }
    }
    Ok(left)
}

impl Search {
    /// Nothing was asked yet.
    pub(crate) fn new(alloc: Global) -> Search
        ensures { sought_of result.seeking ≡ first_sought }
    {
        Search {
            tenant: 0,
            row: 0,
            seeking: Seeking::new(alloc),
            is_spoilt: false,
            contents: 0,
            came: false,
            in_vain: 0,
            tried: 0,
            pause: 0,
        }
    }

    // All of the tenant at this place is sought, from its first session on.
    fn begin(&mut self, alloc: Global, tenant: usize)
        ensures { sought_of self.new.seeking ≡ first_sought }
    {
        self.tenant = tenant;
        self.seeking = Seeking::new(alloc);
        self.is_spoilt = false;
        self.came = false;
        self.in_vain = 0;
    }

    /// Whether all of so many sessions was listed, and none of it is left.
    pub(crate) fn is_through(&self, sessions: usize) -> bool
        ensures { result ≡ is_through (sought_of self.now.seeking) sessions }
    {
        self.seeking.session as usize > sessions
    }

    // Asks for as much more as may be asked for, unless all of so many sessions came.
    fn ask_more(&mut self, alloc: Global, sessions: usize) -> Result<Vec<Ask>, OutOfMemory>
        ensures tenant { self.new.tenant ≡ self.old.tenant }
        ensures sought { sought_of self.new.seeking ≡ sought_of self.old.seeking }
        ensures spoilt { self.new.is_spoilt ≡ self.old.is_spoilt }
        ensures asks { IfOk result (λ asks. AreAsks (sought_of self.new.seeking) asks.items) }
    {
        if self.is_through(sessions) {
            return Ok(Vec::new(alloc));
        }
        self.seeking.ask_more(alloc)
    }

    /// Hears the chunks of the session of the tenant whose depot this is, above that number, and whether these are all. What is wanted of them is asked for.
    pub(crate) fn hear_listing(
        &mut self,
        alloc: Global,
        depot: &Depot,
        session: u32,
        after: u64,
        is_all: bool,
        chunks: &[ListedChunk],
    ) -> Result<Vec<Ask>, OutOfMemory>
        ensures tenant { self.new.tenant ≡ self.old.tenant }
        ensures heard { OnOk result (sought_of self.new.seeking ≡ heard (sought_of self.old.seeking) depot.now session after is_all chunks.now) }
        ensures spoilt { self.new.is_spoilt ≡ self.old.is_spoilt }
        ensures asks { IfOk result (λ asks. AreAsks (sought_of self.new.seeking) asks.items) }
    {
        let last = last_of(chunks, after);
        if !self.seeking.expects(session, after) || !is_all && last <= after {
            return Ok(Vec::new(alloc));
        }
        let left = wanted(alloc, depot, session, chunks)?;
        self.seeking.hear_listing(left, last, is_all);
        self.came = true;
        self.ask_more(alloc, depot.stock.sessions.len())
    }

    // The content of the number came, or won't come; whether one was left.
    fn settle_one(&mut self, number: u64) -> bool
        ensures tenant { self.new.tenant ≡ self.old.tenant }
        ensures sought { sought_of self.new.seeking ≡ settled (sought_of self.old.seeking) number }
        ensures spoilt { self.new.is_spoilt ≡ self.old.is_spoilt }
    {
        let before = self.seeking.left.len();
        self.seeking.settle(number);
        self.seeking.left.len() != before
    }

    /// The content of the session's number came, or won't come, since it is spoilt or not there. More is asked for.
    pub(crate) fn settle(
        &mut self,
        alloc: Global,
        sessions: usize,
        session: u32,
        number: u64,
        is_spoilt: bool,
    ) -> Result<Vec<Ask>, OutOfMemory>
        ensures tenant { self.new.tenant ≡ self.old.tenant }
        ensures settled { OnOk result (sought_of self.new.seeking ≡ (if (sought_of self.old.seeking).session == session then settled (sought_of self.old.seeking) number else sought_of self.old.seeking)) }
        ensures spoilt { OnOk result (self.new.is_spoilt ≡ (self.old.is_spoilt || (is_spoilt && ((sought_of self.old.seeking).session == session)))) }
        ensures asks { IfOk result (λ asks. AreAsks (sought_of self.new.seeking) asks.items) }
    {
        if self.seeking.session != session {
            return Ok(Vec::new(alloc));
        }
        self.is_spoilt = self.is_spoilt || is_spoilt;
        if !self.settle_one(number) {
            return Ok(Vec::new(alloc));
        }
        self.came = true;
        self.contents = self.contents.saturating_add(1);
        self.ask_more(alloc, sessions)
    }

    /// A content came for which there is no space: it is left, and nothing is asked for some ticks.
    pub(crate) fn wait_for_space(&mut self)
        ensures seeking { self.new.seeking ≡ self.old.seeking }
        ensures spoilt { self.new.is_spoilt ≡ self.old.is_spoilt }
        ensures tenant { self.new.tenant ≡ self.old.tenant }
    {
        self.came = false;
        self.pause = PAUSE;
    }

    // The next peer of the column is asked. Where each was asked for the tenant, the next tenant's chunks are sought.
    fn pass_on(&mut self, alloc: Global, depots: &[Depot], column: Column)
        ensures { SoughtOn self.old self.new }
    {
        self.row = next_of(self.row, column.rows);
        self.skip_own(column);
        self.in_vain = 0;
        self.tried = self.tried.saturating_add(1);
        if self.tried.saturating_add(1) < column.rows {
            return;
        }
        self.tried = 0;
        let next = next_lacking(depots, self.tenant);
        if self.is_spoilt && next <= self.tenant {
            self.pause = PAUSE;
        }
        self.begin(alloc, next);
    }

    // No node asks itself.
    fn skip_own(&mut self, column: Column)
        ensures seeking { self.new.seeking ≡ self.old.seeking }
        ensures spoilt { self.new.is_spoilt ≡ self.old.is_spoilt }
        ensures tenant { self.new.tenant ≡ self.old.tenant }
    {
        if self.row == column.own {
            self.row = next_of(self.row, column.rows);
        }
    }

    // A tenant is sought of whom chunks are lacked, if there is one.
    fn turn_to_lacking(&mut self, alloc: Global, depots: &[Depot])
        ensures { SoughtOn self.old self.new }
    {
        if !lacks_of(depots, self.tenant) {
            self.tried = 0;
            let next = next_lacking(depots, self.tenant);
            self.begin(alloc, next);
        }
    }

    // All of a tenant was sought, and a content was spoilt: it is asked of the next peer.
    fn seek_spoilt(&mut self, alloc: Global, depots: &[Depot], column: Column)
        ensures { sought_of self.new.seeking ≡ first_sought }
    {
        self.pass_on(alloc, depots, column);
        let tenant = self.tenant;
        self.begin(alloc, tenant);
    }

    // Passes a tick: whether it is time to ask.
    fn pass_tick(&mut self) -> bool
        ensures seeking { self.new.seeking ≡ self.old.seeking }
        ensures spoilt { self.new.is_spoilt ≡ self.old.is_spoilt }
        ensures tenant { self.new.tenant ≡ self.old.tenant }
    {
        if self.came {
            self.came = false;
            self.in_vain = 0;
            self.pause = WAIT;
            return false;
        }
        if self.pause > 0 {
            self.pause -= 1;
            return false;
        }
        true
    }

    // Asks once more for what did not come, of the next peer where this one was asked in vain.
    fn ask_again(
        &mut self,
        alloc: Global,
        depots: &[Depot],
        column: Column,
    ) -> Result<Vec<Ask>, OutOfMemory>
        ensures sought { SoughtOn self.old self.new }
        ensures asks { IfOk result (λ asks. AreAsks (sought_of self.new.seeking) asks.items) }
    {
        self.skip_own(column);
        if self.in_vain >= MOST_IN_VAIN {
            self.pass_on(alloc, depots, column);
        }
        self.in_vain = self.in_vain.saturating_add(1);
        self.pause = self.pause.max(WAIT);
        self.seeking.ask_again(alloc)
    }

    /// At a tick: it says whether all of the tenant was given, or asks once more for what did not come.
    pub(crate) fn tick(
        &mut self,
        alloc: Global,
        depots: &[Depot],
        column: Column,
    ) -> Result<Turn, OutOfMemory>
        ensures sought { OnOk result (SoughtOn self.old self.new) }
        ensures ends { IfOk result (λ turn. turn.ends ≡ true → IsGiven depots.now self.new) }
        ensures asks { IfOk result (λ turn. AreAsks (sought_of self.new.seeking) turn.asks.items) }
    {
        self.turn_to_lacking(alloc, depots);
        if !lacks_of(depots, self.tenant) || column.rows < 2 {
            return Ok(no_turn(alloc));
        }
        if !self.is_through(sessions_of(depots, self.tenant)) {
            if !self.pass_tick() {
                return Ok(no_turn(alloc));
            }
            return Ok(Turn {
                ends: false,
                asks: self.ask_again(alloc, depots, column)?,
            });
        }
        if self.is_spoilt {
            self.seek_spoilt(alloc, depots, column);
            return Ok(no_turn(alloc));
        }
        Ok(Turn {
            ends: true,
            asks: Vec::new(alloc),
        })
    }
}
