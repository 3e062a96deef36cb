//! What an array says of a key at a version.

/// What the live entry of a key says.
#[derive(Clone, Copy, Debug, PartialEq, Eq)]
pub enum Seen {
    /// The key has a value, which was added to the pairs.
    Put,
    /// The key is gone.
    Gone,
    /// No entry of the key is live.
    None,
}
