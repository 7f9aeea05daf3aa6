//! The plan, which is a grid with the tenants' rows, and the volumes that the tenants open inside their shares.
#![tactic(auto)]

mod likely;
mod limits;
mod names;
mod plans;
mod rows;
mod volumes;

pub use limits::{
    MOST_BLOCKS, MOST_FILE_BLOCKS, MOST_LETTERS, MOST_SESSIONS, MOST_STEPS, MOST_TENANTS,
    MOST_VOLUMES,
};
pub use names::Name;
pub use plans::{Plan, PlanFault, TenantRow};
pub use volumes::{Desk, OpenRefused, VolumeRow, VolumeRows};
