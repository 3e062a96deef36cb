//! What a client may ask of a store.

use strat_base::Version;

/// A command. Keys and bounds are compared by their bytes; an empty upper bound is above every key.
#[derive(Clone, Copy, Debug, PartialEq, Eq)]
pub enum Command<'a> {
    /// Sets the value of a key in a version without a living child.
    Put {
        version: Version,
        key: &'a [u8],
        value: &'a [u8],
    },
    /// Removes a key from a version without a living child.
    Delete {
        version: Version,
        key: &'a [u8],
    },
    /// Asks for the value of a key.
    Get {
        version: Version,
        key: &'a [u8],
    },
    /// Makes a child of a version, with that version's pairs.
    Clone {
        version: Version,
    },
    /// Drops a version without a living child: nothing reads it from then on, and it counts among the versions still.
    DropVersion {
        version: Version,
    },
    /// Asks for the first pairs from `lo` on and below `hi`, at most `limit` of them.
    Scan {
        version: Version,
        lo: &'a [u8],
        hi: &'a [u8],
        limit: u16,
    },
    /// Asks for a version's place in the tree.
    Info {
        version: Version,
    },
    /// Keeps the pairs from `lo` on and below `hi`, as they are now, for later.
    OpenCursor {
        version: Version,
        lo: &'a [u8],
        hi: &'a [u8],
    },
    /// Takes the next pairs of a cursor, at most `limit` of them.
    NextPairs {
        cursor: u64,
        limit: u16,
    },
    /// Lets a cursor go.
    CloseCursor {
        cursor: u64,
    },
    /// Asks how much the store holds.
    Stat,
}
