//! The limits of a store.

/// Bytes of the longest key. A key has at least one byte, a bound of a range may have none.
pub const KEY_MAX: usize = 255;
/// Bytes of the longest value. A value may have none.
pub const VALUE_MAX: usize = 1024;
/// Bytes of a block, the unit in which a store lays out its file.
pub const BLOCK: usize = 4096;
/// Fewest changes per journal region.
pub const MEM_MIN: u32 = 4;
/// Most changes per journal region.
pub const MEM_MAX: u32 = 4096;
/// Most changes in the life of a store.
pub const CHANGES_MAX: u32 = 16_777_216;
/// Most versions of a store.
pub const VERSIONS_MAX: u32 = 16_384;
/// Cursors that may be open at a time.
pub const CURSORS_MAX: usize = 64;
/// Most pairs that one scan answers.
pub const PAIRS_MAX: usize = 256;
/// Bytes of the longest body of a frame.
pub const BODY_MAX: usize = 2048;
/// Levels below level 0: with the smallest level 0 the deepest holds `4 * 2^22 = 2^24` leads.
pub const LEVELS: usize = 22;
/// Most entries of one array.
pub const ENTRIES_MAX: u32 = 33_554_432;
/// Blocks of arrays that are kept in memory.
pub const CACHED_BLOCKS: usize = 256;
