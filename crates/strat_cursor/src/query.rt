//! What a scan asks for.

use crate::sources::Source;
use crate::view::View;
use strat_base::Version;

/// The sources of a view at a version, and which of the pairs are asked for: those from `lo` on and below `hi`, or
/// without an upper bound where `hi` is empty, and at most `limit` of them.
#[derive(Clone, Copy)]
pub struct Query<'a> {
    pub(crate) view: &'a View<'a>,
    pub(crate) sources: &'a [Source<'a>],
    pub(crate) version: Version,
    pub(crate) lo: &'a [u8],
    pub(crate) hi: &'a [u8],
    pub(crate) limit: usize,
}
