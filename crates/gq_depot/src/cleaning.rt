//! Segments of the shelf of which little is named: chunks that are to be moved out of them are looked for, a part at a time.
//!
//! Chunks are moved before ticks and contents, and not after. A shelf that refuses a move ends the node, and a clause says that
//! the shelf noted it; after a step that clause would need one more of each step. As many bytes are moved as are kept. A
//! segment is chosen where less than half is named, so what is moved is less than what goes.

use crate::cursor::{Cursor, Seen};
use crate::{Depots, Spot};
use gq_memory::{GrowVec, SortVec};
use gq_shelf::{Shelf, ShelfFault};
use std::alloc::Global;

/// The most chunks that are looked at in one part.
pub const MOST_SEEN: usize = 16_384;

// So many parts are passed over behind a look that found little to do, before the next one begins.
const PARTS_PASSED: u32 = 64;

// Segments are chosen as long as no more than so many bytes are named in all of them,
const FEW_BYTES: u64 = 134_217_728;

// or no more than this part of all that is named.
const PART_OF_ALL: u64 = 16;

// What the next part is.
#[derive(Clone, Copy, PartialEq, Eq)]
enum Step {
    // So many are passed over, and then a look begins.
    Rest(u32),
    // Chunks are looked at, to see how much of each segment is named.
    Look,
    // Chunks are looked for that lie in the segments that were chosen.
    Move,
}

// A segment, how many bytes it has, and how many of these are named.
#[derive(Clone, Copy)]
struct Named {
    number: u32,
    length: u64,
    named: u64,
}

/// How far a look has come for segments of which less than half is named, and for the chunks that lie there. It sees those segments that were there as it began, but for the last. Nothing rests on it: a chunk may be
/// moved at any time.
#[derive(Drop)]
pub struct Cleaner {
    step: Step,
    // the segments, rising: those that are looked at, or that were chosen
    segments: Vec<Named>,
    cursor: Cursor,
    // how many chunks more this part may look at
    left: usize,
}

impl Cleaner {
    /// The first part begins a look.
    pub fn new(alloc: Global) -> Cleaner {
        Cleaner {
            step: Step::Rest(0),
            segments: Vec::new(alloc),
            cursor: Cursor::at_tenant(0),
            left: 0,
        }
    }

    /// The next part begins.
    pub fn begin_part(&mut self) {
        self.left = MOST_SEEN;
    }

    /// The look ends: there is no space to move chunks to, or little to do.
    pub fn rest(&mut self) {
        self.step = Step::Rest(PARTS_PASSED);
        self.segments.clear();
    }

    // From the first chunk on.
    fn begin(&mut self, step: Step) {
        self.step = step;
        self.cursor = Cursor::at_tenant(0);
    }

    // The place of the segment among those that are looked at.
    fn place_of(&self, segment: u32) -> Option<usize> {
        match self
            .segments
            .as_slice()
            .binary_search_by(|seen| seen.number.cmp(&segment))
        {
            Ok(place) => Some(place),
            Err(_) => None,
        }
    }

    // A content of so many bytes lies in this segment.
    fn see(&mut self, segment: u32, bytes: u64) {
        if let Some(place) = self.place_of(segment) {
            if place < self.segments.len() {
                let seen = &mut self.segments[place];
                seen.named = seen.named.saturating_add(bytes);
            }
        }
    }

    // How many bytes are named in all segments.
    fn named(&self) -> u64 {
        let mut named: u64 = 0;
        for seen in self.segments.as_slice() {
            named = named.saturating_add(seen.named);
        }
        named
    }

    // All chunks were looked at: the first segments are chosen of which less than half is named. One in which no chunk lies is left to who removes it.
    fn choose(&mut self) {
        let most = FEW_BYTES.max(self.named() / PART_OF_ALL);
        let mut named: u64 = 0;
        self.segments.retain(|seen| {
            let is_chosen = seen.named > 0
                && seen.named < seen.length / 2
                && named.saturating_add(seen.named) <= most;
            if is_chosen {
                named = named.saturating_add(seen.named);
            }
            is_chosen
        });
        if self.segments.is_empty() {
            self.rest();
        } else {
            self.begin(Step::Move);
        }
    }
}

impl<S: Shelf + Drop> Depots<S> {
    // The next chunk that lies on the shelf, and in which segment. None: this part is over, or all were looked at.
    fn next_shelved(&self, cleaner: &mut Cleaner) -> Option<(Spot, u32)> {
        for _ in 0..MOST_SEEN {
            if cleaner.left == 0 {
                return None;
            }
            cleaner.left -= 1;
            match self.look_on(&mut cleaner.cursor) {
                Seen::Shelved(spot, segment) => return Some((spot, segment)),
                Seen::Other => {}
                Seen::End => return None,
            }
        }
        None
    }

    // Lists the segments, and how long they are.
    fn list(&self, alloc: Global, cleaner: &mut Cleaner) -> Result<(), ShelfFault> {
        cleaner.rest();
        let mut numbers = self.shelf.segments()?;
        numbers.sort_items()?;
        let mut segments = Vec::new(alloc);
        for number in numbers.as_slice() {
            segments.grow(Named {
                number: *number,
                length: self.shelf.length(*number)?,
                named: 0,
            })?;
        }
        cleaner.segments = segments;
        cleaner.begin(Step::Look);
        Ok(())
    }

    // Looks at the chunks of this part, to see how much of each segment is named.
    fn sum_up(&self, cleaner: &mut Cleaner) {
        for _ in 0..MOST_SEEN {
            match self.next_shelved(cleaner) {
                Some((spot, segment)) => cleaner.see(segment, spot.bytes),
                None => break,
            }
        }
        if self.is_through(&cleaner.cursor) {
            cleaner.choose();
        }
    }

    // The next chunk that lies in a segment that was chosen.
    fn next_chosen(&self, cleaner: &mut Cleaner) -> Option<Spot> {
        for _ in 0..MOST_SEEN {
            match self.next_shelved(cleaner) {
                Some((spot, segment)) => {
                    if cleaner.place_of(segment).is_some() {
                        return Some(spot);
                    }
                }
                None => break,
            }
        }
        if self.is_through(&cleaner.cursor) {
            cleaner.step = Step::Rest(0);
        }
        None
    }

    /// Goes on with the part: it lists segments, looks at chunks, or tells the next one that is to be moved. None: the part is over. Where the shelf refuses it, or memory is wanting, a look
    /// begins anew later.
    pub fn next_spot(
        &self,
        alloc: Global,
        cleaner: &mut Cleaner,
    ) -> Result<Option<Spot>, ShelfFault> {
        match cleaner.step {
            Step::Rest(0) => {
                self.list(alloc, cleaner)?;
                Ok(None)
            }
            Step::Rest(more) => {
                cleaner.step = Step::Rest(more - 1);
                Ok(None)
            }
            Step::Look => {
                self.sum_up(cleaner);
                Ok(None)
            }
            Step::Move => Ok(self.next_chosen(cleaner)),
        }
    }
}
