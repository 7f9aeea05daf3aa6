//! All contents on the shelf are read within a set time, to see whether they can be.
//!
//! A content that nobody reads is lost once its other copies are, and nobody would know before. It is read by ticks and not by
//! a clock, since a machine has no clock. One that the disk can't read is damaged, as one with other bytes is: it ends no
//! node.

ghost use Rattle.std.specs.Prelude.{◌≡◌, ◌<◌, length, IfOk, IfErr};
ghost use Rattle.gq_shelf.specs.Notes.{GoesOn};
ghost use Rattle.gq_stock.specs.Finding.{IsRefused};
ghost use Rattle.gq_stock.specs.Sure.{PutsStay};

use crate::cursor::{Cursor, Seen};
use crate::{Depot, Depots, Spot};
use gq_shelf::{Shelf, ShelfFault};

// The most bytes that are read at one tick, but for those of the last content.
const MOST_READ: u64 = 8_388_608;

// The most chunks that are looked at at one tick.
const MOST_LOOKS: usize = 1_024;

/// How far a reading of all contents on the shelf has come. Behind its end it begins anew. Nothing rests on it: a content may be read at any time.
#[derive(Drop)]
pub struct Scrub {
    // within so many ticks all are read once; none is where there is none of them
    ticks: u64,
    // so many bytes are to be read at each tick; 0 where that is not known yet
    share: u64,
    // so many of them are left at this tick
    left: u64,
    // so many bytes were read ahead of their tick
    ahead: u64,
    // so many chunks more may be looked at in this tick
    looks: usize,
    cursor: Cursor,
    // how many contents were read since it began anew
    contents: u64,
    rounds: u64,
}

impl Scrub {
    /// All contents are to be read within so many ticks, again and again. Of 0 ticks none is read.
    pub fn new(ticks: u64) -> Scrub {
        Scrub {
            ticks,
            share: 0,
            left: 0,
            ahead: 0,
            looks: 0,
            cursor: Cursor::at_tenant(0),
            contents: 0,
            rounds: 0,
        }
    }

    /// How often all contents were read.
    pub fn rounds(&self) -> u64 {
        self.rounds
    }

    // A tick came.
    fn begin_tick(&mut self) {
        self.looks = MOST_LOOKS;
        self.left = self.share.saturating_sub(self.ahead);
        self.ahead = self.ahead.saturating_sub(self.share);
    }

    // A content of so many bytes is read.
    fn take(&mut self, bytes: u64) {
        self.contents = self.contents.saturating_add(1);
        self.ahead = self.ahead.saturating_add(bytes.saturating_sub(self.left));
        self.left = self.left.saturating_sub(bytes);
    }

    // All were read, if there were some. How much there is now is looked at anew.
    fn begin_round(&mut self) {
        if self.contents > 0 {
            self.rounds = self.rounds.saturating_add(1);
        }
        self.contents = 0;
        self.share = 0;
        self.left = 0;
        self.cursor = Cursor::at_tenant(0);
    }
}

impl Depot {
    ghost use Rattle.gq_depot.specs.Scrubbing.{Checks};

    /// Reads the content of the session's number, and says whether this read found it damaged. It is refused where memory is wanting, or the shelf refuses the read.
    pub fn check<S: Shelf>(
        &self,
        shelf: &mut S,
        session: u32,
        number: u64,
    ) -> Result<bool, ShelfFault>
        ensures checked { IfOk result (λ is_damaged. Checks self.now session number is_damaged (S.noted shelf.old) (S.noted shelf.new)) }
        ensures puts_stay { PutsStay (S.noted shelf.old) (S.noted shelf.new) }
        ensures refused { IfErr result (λ fault. IsRefused fault (S.noted shelf.old) (S.noted shelf.new)) }
        ensures goes_on { GoesOn (S.noted shelf.old) (S.noted shelf.new) }
    {
        let Some(place) = self.place_of(session) else {
            return Ok(false);
        };
        self.session(place).check(shelf, number)
    }
}

impl<S: Shelf + Drop> Depots<S> {
    // How many bytes all tenants' chunks are charged: at least as many as lie on the shelf.
    fn charged(&self) -> u64 {
        let mut charged: u64 = 0;
        for depot in self.depots.as_slice() {
            charged = charged.saturating_add(depot.stock.used());
        }
        charged
    }

    /// A tick came: some bytes more are to be read. Where there is much, or little time, that is 8 MiB at most, and it takes longer.
    pub fn begin_scrub(&self, scrub: &mut Scrub) {
        if scrub.ticks == 0 {
            return;
        }
        if scrub.share == 0 {
            scrub.share = (self.charged() / scrub.ticks)
                .saturating_add(1)
                .min(MOST_READ);
        }
        scrub.begin_tick();
    }

    /// The next chunk on the shelf that is to be read at this tick. None: no more is to be read before the next one.
    pub fn next_to_read(&self, scrub: &mut Scrub) -> Option<Spot> {
        for _ in 0..MOST_LOOKS {
            if scrub.left == 0 || scrub.looks == 0 {
                return None;
            }
            scrub.looks -= 1;
            match self.look_on(&mut scrub.cursor) {
                Seen::Shelved(spot, _) => {
                    scrub.take(spot.bytes);
                    return Some(spot);
                }
                Seen::Other => {}
                Seen::End => {
                    scrub.begin_round();
                    return None;
                }
            }
        }
        None
    }
}
