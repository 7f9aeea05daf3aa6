//! What has a length in bytes.

ghost use Rattle.std.specs.Prelude.{◌≡◌, ◌≤◌, ℕ};

/// What has a length in bytes, of which some are in memory.
pub trait Long {
    /// Its length.
    ghost length: { Self → ℕ };

    /// How many bytes of it are in memory.
    ghost fresh_length: { Self → ℕ };

    /// Its length.
    fn len(&self) -> u64
        ensures { result ≡ length self.now };

    /// How many bytes of it are in memory.
    fn fresh_len(&self) -> u64
        ensures { result ≡ fresh_length self.now };

    /// No more are in memory than it has.
    ghost within: { (x : Self) → fresh_length x ≤ length x };
}
