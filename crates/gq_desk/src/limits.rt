//! How much a plan and its tenants may have.

/// The most letters of a name.
pub const MOST_LETTERS: usize = 16;

/// The most tenants of a plan.
pub const MOST_TENANTS: usize = 64;

/// The most blocks of a server.
pub const MOST_BLOCKS: u32 = 4_294_967_295;

/// The most sessions of a tenant.
pub const MOST_SESSIONS: u32 = 16;

/// The most steps of a tenant, each a line of it.
pub const MOST_STEPS: u32 = 1_000_000;

/// The most volumes of a tenant, whatever a plan says.
pub const MOST_VOLUMES: u32 = 65_536;

/// The most blocks of a file, whatever a plan says.
pub const MOST_FILE_BLOCKS: u32 = 16_384;
