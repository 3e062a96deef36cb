//! What a follower answers.

use strat_model::Refusal;

/// What became of the body of a frame.
#[derive(Clone, Copy, Debug, PartialEq, Eq)]
pub(crate) enum Fate {
    /// Its change was carried out.
    Taken,
    /// It was carried out before.
    Old,
    /// Others stand before it.
    Gap,
    /// The body is no change with its number.
    Malformed,
    /// The change was next, and refused.
    Refused(Refusal),
}
