//! The versions of a key that nothing hides yet, with the greatest number in an order of versions first, in which
//! those below another version stand side by side.

ghost use Rattle.std.specs.Prelude.{◌≡◌, ◌<◌, ◌≤◌, ◌+◌, length, vec_len, vec_capacity, IsTrue};
ghost use Rattle.strat_check.specs.Bares.{are_in_order, is_place_of, replaced};

use strat_base::Version;

/// A version, and its number in the order of versions.
#[derive(Clone, Copy)]
pub(crate) struct Bare {
    pub(crate) start: u32,
    pub(crate) version: Version,
}

/// How many of the versions have this number or a greater one. O(log versions).
pub(crate) fn count_from(bare: &[Bare], number: u32) -> usize
    ensures len { result ≤ length bare.now }
    ensures ok { IsTrue (are_in_order bare.now) → IsTrue (is_place_of bare.now number result) }
{
    bare.partition_point(|b| b.start >= number)
}

/// Puts a version in the place of those from one place to before another. Moves 8 bytes for each version behind
/// them, and takes no memory.
pub(crate) fn replace(bare: &mut Vec<Bare>, from: usize, to: usize, version: Bare)
    requires fits { (from ≤ to) × (to ≤ vec_len bare.old) }
    requires room { vec_len bare.old < vec_capacity bare.old }
    ensures ok { bare.new.items ≡ replaced bare.old.items from to version }
    ensures len { vec_len bare.new ≤ vec_len bare.old + 1 }
    ensures kept { vec_capacity bare.old ≤ vec_capacity bare.new }
{
    bare.drain(from..to);
    let _ = bare.insert(from, version);
}
