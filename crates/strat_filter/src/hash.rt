//! The hash of a key, and the places of its bits.

ghost use Rattle.std.specs.Prelude.{◌≡◌, ◌<◌, ◌≤◌, ℕ};
ghost use Rattle.strat_filter.specs.Bits.{fnv as hashed, place as placed};

/// FNV-1a over the bytes of a key, in 64 bits (Fowler, Noll, Vo). O(key).
pub fn fnv(key: &[u8]) -> u64
    ensures ok { result ≡ hashed key.now }
{
    let mut hash: u64 = 14_695_981_039_346_656_037;
    for byte in key {
        hash = (hash ^ *byte as u64).wrapping_mul(1_099_511_628_211);
    }
    hash
}

/// The place among some bits of one of the four that a hash sets: its low half, and so many times its high half, made odd
/// (Kirsch and Mitzenmacher's double hashing).
pub(crate) fn place(hash: u64, i: u64, bits: u64) -> u64
    requires room { 0 < bits }
    requires fits { i ≤ 3 }
    ensures ok { result ≡ placed bits hash i }
    ensures fits { result < bits }
{
    let low = hash % (1 << 32);
    let step = (hash >> 32) / 2 * 2 + 1;
    (low + i * step) % bits
}
