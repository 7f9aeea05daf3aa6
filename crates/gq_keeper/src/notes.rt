//! What a file is taken to hold: notes that only clauses read.

ghost use Rattle.std.specs.Prelude.{◌≡◌, ◌∷◌, List, ℕ, []};
ghost use Rattle.std.specs.Borrow.{ftrue};
ghost use Rattle.gq_keeper.specs.Notes.{Instant, noted, appended, made_sure, may_be_cut, is_cut, may_be_replaced, is_replaced, is_opened};

use std::marker::{Model, PhantomData};

/// What a file was taken to hold, instant after instant. No memory holds it: what it says of a file is argued at each note.
#[derive(Drop)]
pub struct Notes {
    marker: PhantomData<u8>,
    pub ghost instants: { List Instant },
}

impl Model for Notes {
    ghost also_owns = { λ _. ftrue };
}

impl Notes {
    /// Nothing was noted.
    pub(crate) fn new() -> Notes
        ensures { result.instants ≡ [] }
    {
        Notes {
            marker: PhantomData,
        }
    }

    // Which note it is, and a length; bytes.
    fn note(&mut self, _numbers: &[u64], _bytes: &[u8])
        ensures { self.new.instants ≡ noted _numbers.now _bytes.now self.old.instants }
    {}

    // Bytes stand behind those that are there.
    pub(crate) fn appends(&mut self, bytes: &[u8])
        ensures { self.new.instants ≡ appended bytes.now self.old.instants }
    {
        self.note(&[0], bytes)
    }

    // It was made sure of what is there.
    pub(crate) fn makes_sure(&mut self)
        ensures { self.new.instants ≡ made_sure self.old.instants }
    {
        self.note(&[1], &[])
    }

    // It may be cut to this length.
    pub(crate) fn may_be_cut(&mut self, len: usize)
        ensures { self.new.instants ≡ may_be_cut len self.old.instants }
    {
        self.note(&[2, len as u64], &[])
    }

    // It is cut to this length.
    pub(crate) fn is_cut(&mut self, len: usize)
        ensures { self.new.instants ≡ is_cut len self.old.instants }
    {
        self.note(&[3, len as u64], &[])
    }

    // These bytes may stand in the place of all.
    pub(crate) fn may_be_replaced(&mut self, bytes: &[u8])
        ensures { self.new.instants ≡ may_be_replaced bytes.now self.old.instants }
    {
        self.note(&[4], bytes)
    }

    // These bytes stand in the place of all.
    pub(crate) fn is_replaced(&mut self, bytes: &[u8])
        ensures { self.new.instants ≡ is_replaced bytes.now self.old.instants }
    {
        self.note(&[5], bytes)
    }

    // These bytes were read.
    pub(crate) fn is_opened(&mut self, bytes: &[u8])
        ensures { self.new.instants ≡ is_opened bytes.now self.old.instants }
    {
        self.note(&[6], bytes)
    }
}
