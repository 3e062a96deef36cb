//! Whose turn it may be.

/// Whether a change that comes with its number is next.
#[derive(Clone, Copy, Debug, PartialEq, Eq)]
pub enum Turn {
    /// The change is the next one.
    Take,
    /// It was taken before.
    Old,
    /// Others stand before it.
    Gap,
}
