//! All chunks, one after another.

use crate::Depots;
use gq_shelf::{Place, Shelf};

/// A chunk that lies on the shelf: whose it is, by the tenant's place in the plan, and how many bytes it has.
#[derive(Clone, Copy)]
pub struct Spot {
    pub tenant: usize,
    pub session: u32,
    pub number: u64,
    pub bytes: u64,
}

/// The chunk that was looked at last. Nothing rests on it: chunks come and go meanwhile.
#[derive(Clone, Copy)]
pub(crate) struct Cursor {
    tenant: usize,
    session: usize,
    number: u64,
}

/// What is seen at one step.
pub(crate) enum Seen {
    /// A chunk that lies on the shelf, in the segment of this number.
    Shelved(Spot, u32),
    /// One that does not, or the end of a session or a tenant.
    Other,
    /// All were looked at.
    End,
}

impl Cursor {
    /// Before the first chunk of the tenant at this place.
    pub(crate) fn at_tenant(tenant: usize) -> Cursor {
        Cursor {
            tenant,
            session: 0,
            number: 0,
        }
    }

    // The next tenant's first session.
    fn pass_tenant(&mut self) {
        self.tenant = self.tenant.saturating_add(1);
        self.session = 0;
        self.number = 0;
    }

    // The next session of the tenant.
    fn pass_session(&mut self) {
        self.session = self.session.saturating_add(1);
        self.number = 0;
    }
}

// The number of the session at this place; 0 where no session has that place.
fn number_of(place: usize) -> u32 {
    match u32::try_from(place) {
        Ok(place) => place.saturating_add(1),
        Err(_) => 0,
    }
}

impl<S: Shelf + Drop> Depots<S> {
    /// Whether all chunks were looked at.
    pub(crate) fn is_through(&self, cursor: &Cursor) -> bool {
        cursor.tenant >= self.depots.len()
    }

    /// Looks at one chunk more, or passes on to the next session or tenant.
    pub(crate) fn look_on(&self, cursor: &mut Cursor) -> Seen {
        if cursor.tenant >= self.depots.len() {
            return Seen::End;
        }
        let sessions = &self.depots[cursor.tenant].stock.sessions;
        if cursor.session >= sessions.len() {
            cursor.pass_tenant();
            return Seen::Other;
        }
        match sessions[cursor.session].after(cursor.number) {
            Some((number, chunk)) => {
                cursor.number = number;
                match &chunk.place {
                    Place::Fresh(_) => Seen::Other,
                    Place::Shelved(extent) => {
                        let spot = Spot {
                            tenant: cursor.tenant,
                            session: number_of(cursor.session),
                            number,
                            bytes: u64::from(extent.len),
                        };
                        Seen::Shelved(spot, extent.segment)
                    }
                }
            }
            None => {
                cursor.pass_session();
                Seen::Other
            }
        }
    }
}
