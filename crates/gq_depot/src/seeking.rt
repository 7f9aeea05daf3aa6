//! What a server that lacks chunks asks of a peer.

ghost use Rattle.std.specs.Prelude.{◌≡◌, ◌<◌, true, length, remove, IfOk, IfSome, IfNone};
ghost use Rattle.gq_depot.specs.Seeking.{without};

use crate::ListedChunk;
use gq_memory::{GrowVec, OutOfMemory};
use std::alloc::Global;

/// The most chunks that are asked for at a time.
pub const MOST_ASKED: usize = 256;

/// The most bytes that are asked for at a time, but for the last chunk.
pub const MOST_ASKED_BYTES: u64 = 4_194_304;

/// What is asked of a peer.
#[derive(Clone, Copy)]
pub enum Ask {
    /// The chunks of the session above this number.
    Seeks { session: u32, after: u64 },
    /// The content of the session's number.
    Wants { session: u32, number: u64 },
}

/// How far a server that lacks chunks of a tenant has come: it asks for the chunks of one session after another, by their numbers.
#[derive(Drop)]
pub struct Seeking {
    /// The session whose chunks are asked for.
    pub session: u32,
    /// Those up to this number were listed.
    pub after: u64,
    /// Whether these are all of the session.
    pub is_all: bool,
    /// Those of them that were wanted and did not come yet, by their numbers.
    pub left: Vec<ListedChunk>,
    /// How many of these are asked for: the first ones.
    pub asked: usize,
}

// The place of the first chunk of this number.
fn place_of(left: &[ListedChunk], number: u64) -> Option<usize>
    ensures there { IfSome result (λ place. place < length left.now) }
    ensures removed { IfSome result (λ place. without number left.now ≡ remove left.now place) }
    ensures none { IfNone result (without number left.now ≡ left.now) }
{
    let mut place = 0;
    while place < left.len() {
        if left[place].number == number {
            return Some(place);
        }
        place += 1;
    }
    None
}

impl Seeking {
    ghost use Rattle.gq_depot.specs.Seeking.{sought_of, first_sought, expects, passes, with_listing, settled, IsAsk, AreAsks};

    /// From the first chunk of the first session on.
    pub fn new(alloc: Global) -> Seeking
        ensures { sought_of result ≡ first_sought }
    {
        Seeking {
            session: 1,
            after: 0,
            is_all: false,
            left: Vec::new(alloc),
            asked: 0,
        }
    }

    /// Whether it is a listing of this session above this number that is waited for.
    pub fn expects(&self, session: u32, after: u64) -> bool
        ensures { result ≡ expects (sought_of self.now) session after }
    {
        self.left.is_empty() && self.session == session && self.after == after
    }

    // Once all of a session came, the next one is sought.
    fn pass(&mut self)
        ensures { sought_of self.new ≡ passes (sought_of self.old) }
    {
        if self.left.is_empty() && self.is_all {
            self.session = self.session.saturating_add(1);
            self.after = 0;
            self.is_all = false;
        }
    }

    /// Hears which chunks of the session up to this number are wanted, and whether these are all. Those that were left before are left out.
    pub fn hear_listing(&mut self, left: Vec<ListedChunk>, after: u64, is_all: bool)
        ensures { sought_of self.new ≡ with_listing (sought_of self.old) left.items after is_all }
    {
        self.left = left;
        self.asked = 0;
        self.after = after;
        self.is_all = is_all;
        self.pass();
    }

    /// The chunk of the number came, or won't come.
    pub fn settle(&mut self, number: u64)
        ensures { sought_of self.new ≡ settled (sought_of self.old) number }
    {
        if let Some(place) = place_of(self.left.as_slice(), number) {
            let _settled = self.left.remove(place);
            self.asked = self.asked.saturating_sub(1);
        }
        self.pass();
    }
    // Whether one chunk more may be asked for, where these bytes are asked for.
    fn may_ask(&self, bytes: u64) -> bool
        ensures { result ≡ true → self.now.asked < length self.now.left.items }
    {
        self.asked < self.left.len() && self.asked < MOST_ASKED && bytes < MOST_ASKED_BYTES
    }

    // The chunk at this place is asked for.
    fn ask_at(&self, place: usize) -> Ask
        requires { place < length self.now.left.items }
        ensures { IsAsk (sought_of self.now) result }
    {
        Ask::Wants {
            session: self.session,
            number: self.left[place].number,
        }
    }

    // How many bytes are asked for.
    fn asked_bytes(&self) -> u64 {
        let mut bytes: u64 = 0;
        let asked = self.asked.min(self.left.len());
        for chunk in &self.left.as_slice()[..asked] {
            bytes = bytes.saturating_add(chunk.size);
        }
        bytes
    }

    /// Asks for as much more as may be asked for at a time: contents that are left, or where none is, the next listing.
    pub fn ask_more(&mut self, alloc: Global) -> Result<Vec<Ask>, OutOfMemory>
        ensures sought { sought_of self.new ≡ sought_of self.old }
        ensures asks { IfOk result (λ asks. AreAsks (sought_of self.new) asks.items) }
    {
        let mut asks = Vec::new(alloc);
        if self.left.is_empty() {
            asks.grow(Ask::Seeks {
                session: self.session,
                after: self.after,
            })?;
            return Ok(asks);
        }
        let mut bytes = self.asked_bytes();
        while self.may_ask(bytes) {
            asks.grow(self.ask_at(self.asked))?;
            bytes = bytes.saturating_add(self.left[self.asked].size);
            self.asked += 1;
        }
        Ok(asks)
    }

    /// Asks once more for all that is asked for.
    pub fn ask_again(&self, alloc: Global) -> Result<Vec<Ask>, OutOfMemory>
        ensures { IfOk result (λ asks. AreAsks (sought_of self.now) asks.items) }
    {
        let mut asks = Vec::new(alloc);
        if self.left.is_empty() {
            asks.grow(Ask::Seeks {
                session: self.session,
                after: self.after,
            })?;
        }
        let asked = self.asked.min(self.left.len());
        for place in 0..asked {
            asks.grow(self.ask_at(place))?;
        }
        Ok(asks)
    }
}
