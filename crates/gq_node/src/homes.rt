//! Which sessions there are, and which node is a session's home.

ghost use Rattle.std.specs.Prelude.{◌≡◌, ◌<◌, ◌≤◌, ◌*◌, length};
ghost use Rattle.gq_desk.specs.declared.limits.TheConstants.{MOST_SESSIONS};
ghost use Rattle.gq_grid.specs.declared.TheConstants.{MOST_SERVERS};
ghost use Rattle.gq_node.specs.Sites.{number_of, home_place, home_of, session_state_place, session_generation};

use gq_desk::{MOST_SESSIONS, Plan, TenantRow};
use gq_grid::MOST_SERVERS;

// The number of the session at that place of the tenant's among those of all rows, the tenant having so many before it.
fn number(rows: &[TenantRow], tenant: u8, place: usize) -> usize
    requires place { place < MOST_SESSIONS }
    requires tenant { tenant < length rows.now }
    ensures { result ≡ number_of rows.now tenant place }
{
    let mut number = place;
    for row in &rows[..tenant as usize] {
        number += row.sessions as usize;
    }
    number
}

/// The place of the grid at which the home of that session of the tenant stands.
pub(crate) fn home_place(plan: &Plan, tenant: u8, place: usize) -> usize
    requires place { place < MOST_SESSIONS }
    requires tenant { tenant < length plan.now.rows }
    ensures home { result ≡ home_place plan.now tenant place }
    ensures within { result < plan.now.grid.rows * plan.now.grid.cols }
    ensures few { result < MOST_SERVERS }
{
    number(plan.rows(), tenant, place) % plan.grid().servers()
}

/// The place of the session among its tenant's.
pub(crate) fn session_state_place(session: u32) -> usize
    ensures place { result ≡ session_state_place session }
    ensures few { result < MOST_SESSIONS }
{
    session.saturating_sub(1) as usize % MOST_SESSIONS as usize
}

/// How many nodes were lost before at the place of its home.
pub(crate) fn generation(session: u32) -> u32
    ensures { result ≡ session_generation session }
{
    session.saturating_sub(1) / MOST_SESSIONS
}

/// The node that is the session's home.
pub(crate) fn home(plan: &Plan, tenant: u8, session: u8) -> u16
    requires { tenant < length plan.now.rows }
    ensures home { result ≡ home_of plan.now tenant session }
{
    let session = u32::from(session);
    let place = home_place(plan, tenant, session_state_place(session));
    (generation(session) as usize * MOST_SERVERS + place) as u16
}
