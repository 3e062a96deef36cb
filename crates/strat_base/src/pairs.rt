//! A list of pairs of key and value in memory that is taken once.

ghost use Rattle.std.specs.Prelude.{◌≡◌, ◌<◌, ◌≤◌, List, [], ◌∷◌, ◌++◌, length, slice_index_or, IfOk, IsTrue, ◌↔◌};
ghost use Rattle.strat_base.specs.PairBuf.{IsPair};

use crate::failures::NoMemory;
use crate::limits::{KEY_MAX, PAIRS_MAX, VALUE_MAX};
use std::alloc::Global;
use std::marker::Model;

/// Where a pair lies in a buffer: the key's bytes begin at `at`, and the value's after them.
#[derive(Clone, Copy, Debug)]
pub struct PairSpan {
    pub at: usize,
    pub key_len: usize,
    pub value_len: usize,
}

/// Up to 256 pairs of key and value. The memory for them, 327,424 bytes and 256 spans, is taken by
/// `new`, and no other call takes memory.
#[derive(Drop)]
pub struct PairBuf {
    bytes: Vec<u8>,
    places: Vec<PairSpan>,
}

impl Model for PairBuf {
    ghost use Rattle.std.specs.Prelude.{ℕ, List, map, vec_capacity};
    ghost use Rattle.strat_base.specs.PairBuf.{pair_in, HoldsPairs};

    ghost Value = { List (List ℕ × List ℕ) };

    ghost view = { λ b. map (pair_in b.bytes.items) b.places.items };

    ghost invariant = { λ b. HoldsPairs b.bytes.items (vec_capacity b.bytes) b.places.items (vec_capacity b.places) };
}

impl PairBuf {
    /// An empty buffer.
    pub fn new(alloc: Global) -> Result<PairBuf, NoMemory>
        ensures ok { IfOk result (λ b. b ≡ []) }
    {
        Ok(PairBuf {
            bytes: Vec::with_capacity(alloc, (KEY_MAX + VALUE_MAX) * PAIRS_MAX)?,
            places: Vec::with_capacity(alloc, PAIRS_MAX)?,
        })
    }

    /// Forgets all pairs.
    pub fn clear(&mut self)
        ensures ok { self.new ≡ [] }
    {
        self.bytes.clear();
        self.places.clear();
    }

    /// Adds a pair at the end, in the time of copying its bytes.
    pub fn push(&mut self, key: &[u8], value: &[u8])
        requires room { length self.old < PAIRS_MAX }
        requires fits { IsPair (key.now, value.now) }
        ensures ok { self.new ≡ self.old ++ (key.now, value.now) ∷ [] }
    {
        let place = PairSpan {
            at: self.bytes.len(),
            key_len: key.len(),
            value_len: value.len(),
        };
        self.bytes.extend_from_slice(key).unwrap();
        self.bytes.extend_from_slice(value).unwrap();
        self.places.push(place).unwrap();
    }

    /// The number of pairs.
    pub fn len(&self) -> usize
        ensures ok { result ≡ length self.now }
        ensures room { result ≤ PAIRS_MAX }
    {
        self.places.len()
    }

    /// Whether there is no pair.
    pub fn is_empty(&self) -> bool
        ensures ok { IsTrue result ↔ (self.now ≡ []) }
    {
        self.places.is_empty()
    }

    /// The key of a pair, counted from 0.
    pub fn key(&self, i: usize) -> &[u8]
        requires { i < length self.now }
        ensures ok { result.now ≡ (slice_index_or self.now i ([], [])).0 }
        ensures len { 1 ≤ length result.now }
        ensures fits { length result.now ≤ KEY_MAX }
    {
        let place = self.places[i];
        &self.bytes[place.at..place.at + place.key_len]
    }

    /// The value of a pair, counted from 0.
    pub fn value(&self, i: usize) -> &[u8]
        requires { i < length self.now }
        ensures ok { result.now ≡ (slice_index_or self.now i ([], [])).1 }
        ensures fits { length result.now ≤ VALUE_MAX }
    {
        let place = self.places[i];
        let start = place.at + place.key_len;
        &self.bytes[start..start + place.value_len]
    }
}
