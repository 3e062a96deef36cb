//! Filters of keys.

ghost use Rattle.std.specs.Prelude.{◌≡◌, ◌<◌, ◌≤◌, false, length, replicate, IfOk};
ghost use Rattle.strat_filter.specs.Bits.{bits_for, bits_of, with_hash, has_hash};

use crate::bits::{has_bit, set_bit};
use crate::hash::{fnv, place};
use std::alloc::Global;
use std::marker::Model;
use strat_base::NoMemory;

/// A Bloom filter: bits of which each key that was added set four. A key of which some bit is clear was never added. It is
/// seen as its bits.
#[derive(Drop)]
pub struct Filter {
    words: Vec<u64>,
}

impl Model for Filter {
    ghost use Rattle.std.specs.Prelude.{Bool, List};

    ghost Value = { List Bool };

    ghost use Rattle.strat_filter.specs.FilterFields.{bits_kept, HasBits};

    ghost view = { bits_kept };

    ghost invariant = { HasBits };
}

/// Sets the bits of a hash.
#[tactic(auto, using(crate::proofs::WordLemmas::length_bits))]
fn add_hash(words: &mut [u64], hash: u64)
    requires room { 0 < length words.old }
    requires fits { length words.old ≤ 4194304 }
    ensures ok { bits_of words.new ≡ with_hash (bits_of words.old) hash }
    ensures len { length words.new ≡ length words.old }
{
    let bits = 64 * words.len() as u64;
    set_bit(words, place(hash, 0, bits));
    set_bit(words, place(hash, 1, bits));
    set_bit(words, place(hash, 2, bits));
    set_bit(words, place(hash, 3, bits));
}

/// Whether all bits of a hash are set.
#[tactic(auto, using(crate::proofs::WordLemmas::length_bits))]
fn holds_hash(words: &[u64], hash: u64) -> bool
    requires room { 0 < length words.now }
    requires fits { length words.now ≤ 4194304 }
    ensures ok { result ≡ has_hash (bits_of words.now) hash }
{
    let bits = 64 * words.len() as u64;
    has_bit(words, place(hash, 0, bits))
        && has_bit(words, place(hash, 1, bits))
        && has_bit(words, place(hash, 2, bits))
        && has_bit(words, place(hash, 3, bits))
}

impl Filter {
    ghost use Rattle.strat_filter.specs.Bits.{fnv as hashed, may_hold as may_have};

    /// A filter of no keys, for at most so many: eight bits each, rounded up to a multiple of 64. With as many keys as that
    /// some 2.4 % of the others are not refused. The only error is want of memory. O(entries).
    #[tactic(auto, using(crate::proofs::WordLemmas::all_clear))]
    pub fn new(alloc: Global, entries: u32) -> Result<Filter, NoMemory>
        requires fits { (1 ≤ entries) × (entries ≤ 33554432) }
        ensures ok { IfOk result (λ f. f ≡ replicate (bits_for entries) false) }
    {
        let words = vec![in alloc; 0; ((8 * entries as u64 + 63) / 64) as usize]?;
        Ok(Filter { words })
    }

    /// Adds a key. O(key).
    pub fn add(&mut self, key: &[u8])
        ensures ok { self.new ≡ with_hash self.old (hashed key.now) }
    {
        add_hash(&mut self.words, fnv(key));
    }

    /// Whether a key may have been added: of one that was it says so always, of another mostly not. O(key).
    pub fn may_hold(&self, key: &[u8]) -> bool
        ensures ok { result ≡ may_have self.now key.now }
    {
        holds_hash(&self.words, fnv(key))
    }
}
