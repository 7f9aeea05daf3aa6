//! What others see, written to a stream.

ghost use Rattle.std.specs.Prelude.{◌≡◌, ℕ, List, []};
ghost use Rattle.gq_keeper.specs.Notes.{seen_in};

use crate::notes::Notes;
use crate::{Fault, Log, Output};
use std::io::Write;
use std::marker::{Brand, PhantomData};

/// What is promised of all that was shown. Who calls the loop picks it.
pub trait Promise {
    /// With this synced, this may have been shown.
    ghost allows: { List ℕ → List ℕ → Type 0 };
}

impl Promise for Brand {
    ghost allows = { λ synced shown. Unit {0} };
}

/// A stream to which is written what is shown, each time at once. It notes what was shown, and holds none of it.
#[derive(Drop)]
pub struct Stream<W: Write + Drop, K: Promise> {
    to: W,
    notes: Notes,
    of: PhantomData<K>,
}

impl<W: Write + Drop, K: Promise> Stream<W, K> {
    /// The stream, to which nothing was written.
    pub fn new(to: W) -> Stream<W, K>
        ensures { result.notes.instants ≡ [] }
    {
        Stream {
            to,
            notes: Notes::new(),
            of: PhantomData,
        }
    }
}

impl<W: Write + Drop, K: Promise> Output for Stream<W, K> {
    ghost shown = { λ o. seen_in o.notes.instants };

    ghost allows = { K.allows };

    fn show<L: Log>(&mut self, _log: &L, bytes: &[u8]) -> Result<(), Fault> {
        if self.to.write_all(bytes).is_err() || self.to.flush().is_err() {
            return Err(Fault::Write);
        }
        self.notes.appends(bytes);
        Ok(())
    }
}
