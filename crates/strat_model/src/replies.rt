//! What a store answers.

use strat_base::Version;

/// A reply. The value of `Found` and the pairs of `Pairs` stand beside it, in a `PairBuf`.
#[derive(Clone, Copy, Debug, PartialEq, Eq)]
pub enum Reply {
    /// The change is in the store.
    Done,
    /// The key has this value.
    Found,
    /// The key has no value.
    Absent,
    /// These pairs, and whether others follow them.
    Pairs {
        more: bool,
    },
    /// The new version.
    Made {
        version: Version,
    },
    /// A version's parent, its distance from version 0, and whether it has a living child.
    Info {
        parent: Option<Version>,
        depth: u32,
        frozen: bool,
    },
    /// The new cursor.
    Opened {
        cursor: u64,
    },
    /// How many versions there are, the dropped ones too, how many updates and changes were made, and how many cursors are open.
    Stat {
        versions: u32,
        updates: u32,
        changes: u32,
        cursors: u32,
    },
    /// Refused for this reason. Nothing was changed, except where the device failed: then the next
    /// opening tells.
    Refused(Refusal),
}

/// Why a command was refused.
#[derive(Clone, Copy, Debug, PartialEq, Eq)]
pub enum Refusal {
    /// There is no such version, or it was dropped.
    UnknownVersion,
    /// The version has a living child, and takes no more changes until that is dropped.
    Frozen,
    /// There is no such cursor.
    UnknownCursor,
    /// The store has all the versions that it was made for.
    VersionLimit,
    /// The store has taken all the changes that it was made for.
    ChangeLimit,
    /// All cursors are in use.
    CursorLimit,
    /// The body is no command.
    Malformed,
    /// A key has no byte or more than 255, or a bound has more than 255.
    KeySize,
    /// A value has more than 1,024 bytes.
    ValueSize,
    /// A limit is 0 or above 256.
    ScanSize,
    /// The frame's length is above 2,048. Nothing after it is read.
    FrameTooLong,
    /// Version 0 cannot be dropped.
    Root,
    /// Memory ran out.
    NoMemory,
    /// The device failed. The store has to be opened again.
    DeviceFault,
    /// A block of the store is damaged. The store has to be opened again.
    Damaged { block: u32 },
}
