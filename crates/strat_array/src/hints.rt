//! Where the blocks of arrays begin, as far as that is remembered. A hint is a guess and no fact: a search looks at the
//! block that hints lead it to, and finds what it would find without them.

ghost use Rattle.std.specs.Prelude.{◌≡◌, ◌≤◌, ◌<◌};

use std::alloc::Global;
use strat_base::get_u64;

/// How many hints are kept, as a power of two: 16,384.
const PLACES_LOG: u32 = 14;

/// How many hints are kept.
const PLACES: usize = 16_384;

/// The first 24 bytes of a key as numbers, and zeros where it has fewer.
#[derive(Clone, Copy, Drop)]
struct Front {
    first: u64,
    second: u64,
    third: u64,
}

/// On which side of a block's beginning a key lies.
#[derive(Clone, Copy, Drop)]
enum Side {
    /// The block begins above the key.
    Before,
    /// It begins below it.
    Behind,
    /// It isn't known.
    Unknown,
}

/// Eight bytes from an offset on as a number, and zeros behind the end.
fn word(bytes: &[u8], at: usize) -> u64
    requires { at ≤ 16 }
{
    if let Some(word) = get_u64(bytes, at) {
        return word;
    }
    if bytes.len() <= at {
        return 0;
    }
    let mut word = 0;
    for i in at..at + 8 {
        let byte = match bytes.get(i) {
            Some(byte) => *byte,
            None => 0,
        };
        word = (word << 8) | byte as u64;
    }
    word
}

impl Front {
    /// The front of a key.
    fn of(key: &[u8]) -> Front {
        Front {
            first: word(key, 0),
            second: word(key, 8),
            third: word(key, 16),
        }
    }

    /// On which side a key with another front lies, seen from one with this front.
    fn side(&self, key: &Front) -> Side {
        let (mine, other) = if self.first != key.first {
            (self.first, key.first)
        } else if self.second != key.second {
            (self.second, key.second)
        } else {
            (self.third, key.third)
        };
        if mine < other {
            Side::Behind
        } else if other < mine {
            Side::Before
        } else {
            Side::Unknown
        }
    }
}

/// What hints see of a key in an array: the array's number, of which blocks it has hints, and the front of the key.
#[derive(Clone, Copy, Drop)]
pub(crate) struct Outline {
    pub array: u64,
    /// It has a hint for each 2^scale-th block.
    scale: u32,
    front: Front,
}

impl Outline {
    /// The outline of a key in an array of so many blocks: an array with more blocks than there are places for hints
    /// has a hint for each 2^s-th, with the least s for which all have a place.
    pub fn new(array: u64, count: u32, key: &[u8]) -> Outline {
        let bits = 32 - count.saturating_sub(1).leading_zeros();
        Outline {
            array,
            scale: bits.saturating_sub(PLACES_LOG),
            front: Front::of(key),
        }
    }

    /// How many of the blocks before an index may have a hint.
    fn hinted_before(&self, index: u32) -> u32 {
        match index.checked_sub(1) {
            None => 0,
            Some(last) => (last >> (self.scale % 32)).saturating_add(1),
        }
    }

    /// The block of the i-th hint.
    fn block_of(&self, i: u32) -> u32 {
        i << (self.scale % 32)
    }

    /// The block of the hint before the i-th, or another one if that is one of the first `begin`.
    fn block_before(&self, i: u32, begin: u32, other: u32) -> u32 {
        if begin < i {
            self.block_of(i - 1)
        } else {
            other
        }
    }

    /// The array's number and that of a hint, mixed.
    fn name_of(&self, i: u32) -> u64 {
        (self.array << 32) | i as u64
    }

    /// The place of a hint: those of one array follow each other.
    fn place_of(&self, i: u32) -> usize {
        let start = self.array.wrapping_mul(0x9E37_79B9_7F4A_7C15) >> 40;
        ((start + i as u64) & 0x3FFF) as usize
    }
}

/// How a block begins that was read: which it is, and the front of its first key.
#[derive(Clone, Copy, Drop)]
struct Hint {
    name: u64,
    front: Front,
}

/// Hints where blocks begin. Each has one place, where it takes that of another one; none is ever removed, since the
/// number of an array that is gone comes never again.
#[derive(Drop)]
pub(crate) struct Hints {
    hints: Vec<Hint>,
}

/// Where hints lead a search for a key.
#[derive(Clone, Copy, Drop)]
pub(crate) struct Guess {
    /// The block to look at next.
    pub next: u32,
    /// The last that is remembered to begin below the key. If it is at hand, it is looked at first: looking at a block
    /// that isn't remembered costs a read.
    pub known: u32,
}

/// A block between two borders: this one, or else the one at the border that it lies beyond.
fn within(block: u32, low: u32, high: u32) -> u32
    requires { low < high }
    ensures ok { (low ≤ result) × (result < high) }
{
    if block < low {
        low
    } else if high <= block {
        high - 1
    } else {
        block
    }
}

impl Hints {
    /// Room for them, 524,288 bytes, or none where memory is short.
    pub fn new(alloc: Global) -> Hints {
        let front = Front {
            first: 0,
            second: 0,
            third: 0,
        };
        let none = Hint {
            name: u64::MAX,
            front,
        };
        match vec![in alloc; none; PLACES] {
            Ok(hints) => Hints { hints },
            Err(_) => Hints {
                hints: Vec::new(alloc),
            },
        }
    }

    /// Remembers the outline of the first key of a block at an index, if such a block has a hint. O(1).
    pub fn learn(&mut self, first: &Outline, index: u32) {
        let i = first.hinted_before(index);
        if first.block_of(i) != index {
            return;
        }
        if let Some(hint) = self.hints.get_mut(first.place_of(i)) {
            *hint = Hint {
                name: first.name_of(i),
                front: first.front,
            };
        }
    }

    /// On which side of the block of the i-th hint a key lies, as far as that is remembered.
    fn side(&self, key: &Outline, i: u32) -> Side {
        match self.hints.get(key.place_of(i)) {
            Some(hint) if hint.name == key.name_of(i) => hint.front.side(&key.front),
            _ => Side::Unknown,
        }
    }

    /// The block to look at next in a search for a key, of those from `low` on and below `high`: halving comes to one
    /// whose hint isn't there, or else it is the middle one of those that all hints leave. O(log blocks), without a
    /// read.
    pub fn guess(&self, key: &Outline, low: u32, high: u32) -> Guess
        requires { low < high }
        ensures ok { (low ≤ result.next) × (result.next < high) }
        ensures found { (low ≤ result.known) × (result.known < high) }
    {
        let (begin, end) = (key.hinted_before(low), key.hinted_before(high));
        let mut first = begin;
        let mut last = end;
        while first < last {
            let mid = first + (last - first) / 2;
            match self.side(key, mid) {
                Side::Behind => first = mid + 1,
                Side::Before => last = mid,
                Side::Unknown => {
                    let next = within(key.block_of(mid), low, high);
                    let known = within(key.block_before(first, begin, next), low, high);
                    return Guess { next, known };
                }
            }
        }
        let from = key.block_before(first, begin, low);
        let to = if first < end {
            key.block_of(first)
        } else {
            high
        };
        let next = within(from + to.saturating_sub(from) / 2, low, high);
        Guess { next, known: next }
    }
}
