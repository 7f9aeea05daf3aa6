//! Gates that hold the workers of a live run, count their holds, or give up.

use gq_live::{Gate, GaveUp};
use std::sync::atomic::{AtomicU64, Ordering};
use std::thread;

const LOOKS: u64 = 1_000_000_000;

// Looks a bounded number of times whether the flag is set.
fn sees(flag: &AtomicU64) -> Result<(), GaveUp> {
    for _ in 0..LOOKS {
        if flag.load(Ordering::SeqCst) != 0 {
            return Ok(());
        }
        thread::yield_now();
    }
    Err(GaveUp)
}

// Each of two servers waits, under its lock, for the other.
#[derive(Drop)]
pub(crate) struct Meeting {
    pub(crate) first: AtomicU64,
    pub(crate) second: AtomicU64,
}

impl Meeting {
    // Nobody was met.
    pub(crate) fn new() -> Meeting {
        Meeting {
            first: AtomicU64::new(0),
            second: AtomicU64::new(0),
        }
    }
}

impl Gate for Meeting {
    ghost use Rattle.std.specs.Prelude.{false};

    ghost never = { false };

    fn before(&self, _server: u32) -> Result<(), GaveUp> {
        Ok(())
    }

    fn inside(&self, server: u32) -> Result<(), GaveUp> {
        let (mine, other) = if server == 0 {
            (&self.first, &self.second)
        } else {
            (&self.second, &self.first)
        };
        mine.fetch_add(1, Ordering::SeqCst);
        sees(other)
    }
}

// The first worker waits, before the lock, for another that holds it.
#[derive(Drop)]
pub(crate) struct Overtaking {
    come: AtomicU64,
    pub(crate) held: AtomicU64,
}

impl Overtaking {
    // Nobody came.
    pub(crate) fn new() -> Overtaking {
        Overtaking {
            come: AtomicU64::new(0),
            held: AtomicU64::new(0),
        }
    }
}

impl Gate for Overtaking {
    ghost use Rattle.std.specs.Prelude.{false};

    ghost never = { false };

    fn before(&self, _server: u32) -> Result<(), GaveUp> {
        if self.come.fetch_add(1, Ordering::SeqCst) == 0 {
            return sees(&self.held);
        }
        Ok(())
    }

    fn inside(&self, _server: u32) -> Result<(), GaveUp> {
        self.held.fetch_add(1, Ordering::SeqCst);
        Ok(())
    }
}

// It counts the holds of the cells of four servers.
#[derive(Drop)]
pub(crate) struct Counting {
    pub(crate) held: [AtomicU64; 4],
}

impl Counting {
    // None was held.
    pub(crate) fn new() -> Counting {
        Counting {
            held: [
                AtomicU64::new(0),
                AtomicU64::new(0),
                AtomicU64::new(0),
                AtomicU64::new(0),
            ],
        }
    }
}

impl Gate for Counting {
    ghost use Rattle.std.specs.Prelude.{true};

    ghost never = { true };

    fn before(&self, _server: u32) -> Result<(), GaveUp> {
        Ok(())
    }

    fn inside(&self, server: u32) -> Result<(), GaveUp> {
        if let Some(count) = self.held.get(server as usize) {
            count.fetch_add(1, Ordering::SeqCst);
        }
        Ok(())
    }
}

// It gives up at once.
#[derive(Drop)]
pub(crate) struct Shut;

impl Gate for Shut {
    ghost use Rattle.std.specs.Prelude.{false};

    ghost never = { false };

    fn before(&self, _server: u32) -> Result<(), GaveUp> {
        Err(GaveUp)
    }

    fn inside(&self, _server: u32) -> Result<(), GaveUp> {
        Ok(())
    }
}
