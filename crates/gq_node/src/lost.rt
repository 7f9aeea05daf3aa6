//! Which nodes of a grid were lost.

ghost use Rattle.std.specs.Prelude.{◌≡◌, ◌↔◌, ℕ, ◌<◌, ◌≤◌, ◌∷◌, ◌++◌, [], IfOk, IsErrOf, OnOk, OnErr};
ghost use Rattle.gq_grid.specs.declared.TheConstants.{MOST_SERVERS};
ghost use Rattle.gq_replace.specs.Plans.{times, node_at};
ghost use Rattle.gq_node.specs.Sites.{plan_in};

use gq_grid::MOST_SERVERS;
use gq_memory::{GrowVec, OutOfMemory, filled, slice_copied};
use std::alloc::Global;
use std::marker::Model;
use thiserror::Error;

/// The most nodes that may be lost at one place, one after another.
pub const MOST_TIMES: u8 = 14;

/// The numbers of nodes are below this: with each node that is lost at a place its number is greater by `gq_grid::MOST_SERVERS`.
pub const NODE_NUMBERS: u32 = 960;

/// The most numbers that sessions of a tenant may have: with each node that is lost at its home, a session's number is greater by
/// `gq_desk::MOST_SESSIONS`. A letter has room for a number below 256.
pub const MOST_NUMBERS: u32 = 240;

/// The places of a grid whose nodes were lost, in the order of the losses. So a place stands there once for each node that was lost there.
#[derive(Drop)]
pub struct Lost {
    places: Vec<u8>,
    // how often each place stands there
    times: Vec<u8>,
}

impl Model for Lost {
    ghost use Rattle.std.specs.Prelude.{List, ℕ};
    ghost use Rattle.gq_node.specs.Lost.{IsCounted};

    ghost Value = { List ℕ };

    ghost view = { λ l. l.places.items };

    ghost invariant = { λ l. IsCounted l.places.items l.times.items };
}

/// Why a place is not put behind those that are there.
#[derive(Debug, Drop, Error)]
pub enum LostRefused {
    /// As many nodes as may be were lost there.
    #[error("lost")]
    TooOften,
    /// Memory was wanting.
    #[error("out of memory")]
    Memory(OutOfMemory),
}

impl From<OutOfMemory> for LostRefused {
    ghost use Rattle.gq_node.specs.declared.lost.LostRefused.TheVariants.{Memory as OfMemory};

    ghost from_gives = { λ m e. e ≡ OfMemory m };

    fn from(refused: OutOfMemory) -> LostRefused {
        LostRefused::Memory(refused)
    }
}

impl Lost {
    /// No node was lost.
    pub fn none(alloc: Global) -> Result<Lost, OutOfMemory>
        ensures { IfOk result (λ lost. lost ≡ []) }
    {
        let times = filled(alloc, 0, MOST_SERVERS)?;
        Ok(Lost {
            places: Vec::new(alloc),
            times,
        })
    }

    /// The node at the place is lost too, behind those that are. `TooOften` comes exactly where [`MOST_TIMES`] nodes were lost there; after
    /// a fault all is as it was.
    pub fn add(&mut self, place: u8) -> Result<(), LostRefused>
        requires { place < MOST_SERVERS }
        ensures added { OnOk result (self.new ≡ self.old ++ place ∷ []) }
        ensures same { OnErr result (self.new ≡ self.old) }
        ensures often { IsErrOf result LostRefused.TooOften ↔ (times (plan_in self.old) place ≡ MOST_TIMES) }
    {
        let before = self.times[place as usize];
        if before == MOST_TIMES {
            return Err(LostRefused::TooOften);
        }
        self.places.grow(place)?;
        self.times[place as usize] = before + 1;
        Ok(())
    }

    /// The same once more.
    pub fn copy(&self, alloc: Global) -> Result<Lost, OutOfMemory>
        ensures { IfOk result (λ same. same ≡ self.now) }
    {
        Ok(Lost {
            places: slice_copied(alloc, self.places.as_slice())?,
            times: slice_copied(alloc, self.times.as_slice())?,
        })
    }

    /// The places, in order.
    pub fn places(&self) -> &[u8]
        ensures { result.now ≡ self.now }
    {
        self.places.as_slice()
    }

    // At no place were more nodes lost than may be.
    pub(crate) fn few(&self)
        ensures { (place : ℕ) → times (plan_in self.now) place ≤ MOST_TIMES }
    {
        let _places = &self.places;
    }

    /// How many nodes were lost at the place.
    pub fn times(&self, place: usize) -> u8
        ensures times { result ≡ times (plan_in self.now) place }
        ensures few { result ≤ MOST_TIMES }
    {
        let times = self.times.as_slice();
        if place >= times.len() {
            return 0;
        }
        times[place]
    }

    /// The number of the node that stands at the place since.
    pub fn node_at(&self, place: usize) -> u16
        requires { place ≤ 255 }
        ensures { result ≡ node_at (plan_in self.now) place }
    {
        u16::from(self.times(place)) * MOST_SERVERS as u16 + place as u16
    }
}
