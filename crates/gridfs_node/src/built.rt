//! Of what this program was built.

/// Told behind the version. `tools/build` writes the commit and the kit here, in a copy of its own.
pub const BUILD_NOTE: &str = "commit and kit: unknown, as this build was not told them";
