//! Segments of the shelf in which no chunk lies are looked for, a part at a time, and removed.
//!
//! Nothing rests on that look: before a segment goes all chunks are looked at once more, while all facts are synced. A chunk
//! that comes later lies after all that is on the shelf, and nothing names what was removed. A crash amid it leaves segments
//! that the next look finds. A count for each segment would make the last look short, and would have to be proved through each
//! step.

ghost use Rattle.std.specs.Prelude.{◌≡◌, ◌+◌, ◌≤◌, IfOk, IfSome};
ghost use Rattle.gq_shelf.specs.Extents.{place_of};

use crate::Depots;
use crate::cursor::{Cursor, Seen};
use gq_memory::SortVec;
use gq_shelf::{Shelf, ShelfFault};
use std::alloc::Global;

/// The most chunks that are looked at in one part.
pub const MOST_LOOKED: usize = 1_024;

/// So many parts are passed over behind a look, before the next one begins.
pub const PARTS_APART: u32 = 64;

// What the next part is.
#[derive(Clone, Copy, PartialEq, Eq)]
enum Part {
    // So many are passed over, and then a look begins.
    Rest(u32),
    // Chunks are looked at.
    Look,
    // So many are passed over, and then a segment is removed of which no chunk was seen.
    Remove(u32),
}

/// How far a look for segments has come in which no chunk lies. Of those that were there as it began it leaves the ones of which it saw no chunk. What comes
/// meanwhile lies in the last segment, or in later ones. Nothing rests on it: each is looked for once more before it goes (`Depots::remove`).
#[derive(Drop)]
pub struct Sweep {
    part: Part,
    // the segments of which no chunk was seen, rising
    left: Vec<u32>,
    cursor: Cursor,
    // how many parts of the look there were
    parts: u32,
}

impl Sweep {
    /// The first part begins a look.
    pub fn new(alloc: Global) -> Sweep {
        Sweep {
            part: Part::Rest(0),
            left: Vec::new(alloc),
            cursor: Cursor::at_tenant(0),
            parts: 0,
        }
    }

    // From the first chunk on, of these segments.
    fn begin(&mut self, segments: Vec<u32>) {
        self.part = Part::Look;
        self.left = segments;
        self.parts = 0;
        self.cursor = Cursor::at_tenant(0);
    }

    // A chunk lies in this segment.
    fn see(&mut self, segment: u32) {
        if let Ok(place) = self.left.as_slice().binary_search(&segment) {
            let _seen = self.left.remove(place);
        }
    }

    // All chunks were looked at, or a segment was, of which none was seen. To look at all of them at once takes as long as all parts of the look, so some parts are passed
    // over before each.
    fn wait(&mut self) {
        self.part = Part::Remove(self.parts / 4);
    }

    // No segment is left.
    fn end(&mut self) {
        self.part = Part::Rest(PARTS_APART);
    }
}

impl<S: Shelf + Drop> Depots<S> {
    ghost use Rattle.gq_depot.specs.Segments.{NoneLies};

    // Looks at some chunks more.
    fn look(&self, sweep: &mut Sweep) {
        sweep.parts = sweep.parts.saturating_add(1);
        for _ in 0..MOST_LOOKED {
            if sweep.left.is_empty() {
                break;
            }
            match self.look_on(&mut sweep.cursor) {
                Seen::Shelved(_, segment) => sweep.see(segment),
                Seen::Other => {}
                Seen::End => {
                    sweep.wait();
                    return;
                }
            }
        }
        if sweep.left.is_empty() {
            sweep.wait();
        }
    }

    // Begins a look.
    fn begin_look(&self, sweep: &mut Sweep) -> Result<(), ShelfFault> {
        sweep.end();
        let mut segments = self.shelf.segments()?;
        segments.sort_items()?;
        sweep.begin(segments);
        Ok(())
    }

    // Removes the last segment that is left, if no chunk lies there.
    fn remove_last(&self, sweep: &mut Sweep) -> Result<Option<u32>, ShelfFault>
        ensures dead { IfOk result (λ removed. IfSome removed (λ segment. NoneLies segment self.now.depots.items)) }
        ensures below { IfOk result (λ removed. IfSome removed (λ segment. place_of (segment + 1) 0 ≤ S.end self.now.shelf)) }
    {
        let Some(segment) = sweep.left.pop() else {
            sweep.end();
            return Ok(None);
        };
        sweep.wait();
        if self.remove(segment)? {
            Ok(Some(segment))
        } else {
            Ok(None)
        }
    }

    /// Does one part of a look for segments in which no chunk lies: it lists them, looks at some chunks, or removes one of them, which it tells then. Who calls sees to it
    /// that all facts of these chunks are synced (`remove`). Where the shelf refuses it, or memory is wanting, this segment is left to the next look.
    pub fn sweep(&self, sweep: &mut Sweep) -> Result<Option<u32>, ShelfFault>
        ensures dead { IfOk result (λ removed. IfSome removed (λ segment. NoneLies segment self.now.depots.items)) }
        ensures below { IfOk result (λ removed. IfSome removed (λ segment. place_of (segment + 1) 0 ≤ S.end self.now.shelf)) }
    {
        match sweep.part {
            Part::Rest(0) => {
                self.begin_look(sweep)?;
                Ok(None)
            }
            Part::Rest(more) => {
                sweep.part = Part::Rest(more - 1);
                Ok(None)
            }
            Part::Look => {
                self.look(sweep);
                Ok(None)
            }
            Part::Remove(0) => self.remove_last(sweep),
            Part::Remove(more) => {
                sweep.part = Part::Remove(more - 1);
                Ok(None)
            }
        }
    }
}
