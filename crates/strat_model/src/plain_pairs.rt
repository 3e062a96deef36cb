//! Pairs of key and value, each in memory of its own.

ghost use Rattle.std.specs.Prelude.{◌≡◌, ◌<◌, ◌≤◌, ◌+◌, ℕ, List, [], length, nat_lt, min, take, drop, Some, None, slice_set, slice_index_or, IfOk, IfSome, IfNone, OnOk, OnErr, MatchResult};
ghost use Rattle.std.specs.List.{insert, remove};
ghost use Rattle.std.specs.Option.{option_copied};
ghost use Rattle.strat_base.specs.declared.limits.TheConstants.{VALUE_MAX, PAIRS_MAX};
ghost use Rattle.strat_base.specs.PairBuf.{IsPair};
ghost use Rattle.strat_model.specs.Pairs.{value_of, set, unset, is_between, range};

use std::alloc::Global;
use std::cmp::Ordering;
use std::marker::Model;
use strat_base::limits::PAIRS_MAX;
use strat_base::{NoMemory, PairBuf};

/// A key and its value.
#[derive(Drop)]
pub(crate) struct PlainPair {
    key: Vec<u8>,
    value: Vec<u8>,
}

impl Model for PlainPair {
    ghost use Rattle.std.specs.Prelude.{ℕ, List};
    ghost use Rattle.strat_base.specs.PairBuf.{IsPair};

    ghost Value = { List ℕ × List ℕ };

    ghost view = { λ p. (p.key.items, p.value.items) };

    ghost invariant = { λ p. IsPair (p.key.items, p.value.items) };
}

impl PlainPair {
    fn new(alloc: Global, key: &[u8], value: &[u8]) -> Result<PlainPair, NoMemory>
        requires fits { IsPair (key.now, value.now) }
        ensures ok { IfOk result (λ pair. pair ≡ (key.now, value.now)) }
    {
        Ok(PlainPair {
            key: Vec::from_slice(alloc, key)?,
            value: Vec::from_slice(alloc, value)?,
        })
    }

    fn key(&self) -> &[u8]
        ensures ok { result.now ≡ self.now.0 }
        ensures fits { IsPair self.now }
    {
        self.key.as_slice()
    }

    fn value(&self) -> &[u8]
        ensures ok { result.now ≡ self.now.1 }
        ensures fits { IsPair self.now }
    {
        self.value.as_slice()
    }

    fn set_value(&mut self, value: &[u8]) -> Result<(), NoMemory>
        requires fits { length value.now ≤ VALUE_MAX }
        ensures ok { OnOk result (self.new ≡ (self.old.0, value.now)) }
        ensures err { OnErr result (self.new ≡ self.old) }
    {
        self.value = Vec::from_slice(*self.value.allocator(), value)?;
        Ok(())
    }

    fn copy(&self) -> Result<PlainPair, NoMemory>
        ensures ok { IfOk result (λ pair. pair ≡ self.now) }
    {
        PlainPair::new(
            *self.key.allocator(),
            self.key.as_slice(),
            self.value.as_slice(),
        )
    }
}

/// Whether a key is at or after `lo`, and before `hi` where `hi` is not empty.
fn is_between(lo: &[u8], hi: &[u8], key: &[u8]) -> bool
    ensures ok { result ≡ is_between lo.now hi.now key.now }
{
    key.cmp(lo) != Ordering::Less && (hi.is_empty() || key.cmp(hi) == Ordering::Less)
}

/// The map of a version: pairs with ascending keys.
#[derive(Drop)]
pub(crate) struct PlainPairs {
    pairs: Vec<PlainPair>,
}

impl Model for PlainPairs {
    ghost use Rattle.std.specs.Prelude.{ℕ, List};

    ghost Value = { List (List ℕ × List ℕ) };

    ghost view = { λ p. p.pairs.items };
}

impl PlainPairs {
    /// The empty map.
    pub(crate) fn new(alloc: Global) -> PlainPairs
        ensures ok { result ≡ [] }
    {
        PlainPairs {
            pairs: Vec::new(alloc),
        }
    }

    /// Takes all pairs away.
    pub(crate) fn clear(&mut self)
        ensures ok { self.new ≡ [] }
    {
        self.pairs = Vec::new(*self.pairs.allocator());
    }

    /// The number of pairs.
    pub(crate) fn len(&self) -> usize
        ensures ok { result ≡ length self.now }
    {
        self.pairs.len()
    }

    /// Where the pair of a key is.
    fn find(&self, key: &[u8]) -> Option<usize>
        ensures found { IfSome result (λ i. (i < length self.now)
            × (value_of self.now key.now ≡ Some (slice_index_or self.now i ([], [])).1)
            × (unset key.now self.now ≡ remove self.now i)) }
        ensures none { IfNone result (value_of self.now key.now ≡ None) }
        ensures same { IfNone result (unset key.now self.now ≡ self.now) }
    {
        for (i, pair) in self.pairs.iter().enumerate() {
            if key.cmp(pair.key()) == Ordering::Equal {
                return Some(i);
            }
        }
        None
    }

    /// The value of a key.
    pub(crate) fn get(&self, key: &[u8]) -> Option<&[u8]>
        ensures ok { option_copied result ≡ value_of self.now key.now }
        ensures fits { IfSome result (λ value. length value.now ≤ VALUE_MAX) }
    {
        let i = self.find(key)?;
        Some(self.pairs[i].value())
    }

    /// Where the pair of a key is, or else where it would stand.
    fn search(&self, key: &[u8]) -> Result<usize, usize>
        ensures ok { MatchResult result
            (λ i. (i < length self.now) × ((value : List ℕ) → set key.now value self.now
            ≡ slice_set self.now i ((slice_index_or self.now i ([], [])).0, value)))
            (λ i. (i ≤ length self.now) × ((value : List ℕ) → set key.now value self.now
            ≡ insert self.now i (key.now, value))) }
    {
        for (i, pair) in self.pairs.iter().enumerate() {
            match key.cmp(pair.key()) {
                Ordering::Less => return Err(i),
                Ordering::Equal => return Ok(i),
                Ordering::Greater => {}
            }
        }
        Err(self.pairs.len())
    }

    /// Gives a key a value, in place of the value that it has.
    pub(crate) fn set(&mut self, key: &[u8], value: &[u8]) -> Result<(), NoMemory>
        requires fits { IsPair (key.now, value.now) }
        ensures ok { OnOk result (self.new ≡ set key.now value.now self.old) }
        ensures err { OnErr result (self.new ≡ self.old) }
    {
        match self.search(key) {
            Ok(i) => self.pairs[i].set_value(value)?,
            Err(i) => {
                let pair = PlainPair::new(*self.pairs.allocator(), key, value)?;
                self.pairs.insert(i, pair)?;
            }
        }
        Ok(())
    }

    /// Takes a key away.
    pub(crate) fn unset(&mut self, key: &[u8])
        ensures ok { self.new ≡ unset key.now self.old }
    {
        if let Some(i) = self.find(key) {
            self.pairs.remove(i);
        }
    }

    /// An equal map.
    pub(crate) fn copy(&self) -> Result<PlainPairs, NoMemory>
        ensures ok { IfOk result (λ copy. copy ≡ self.now) }
    {
        let mut pairs = Vec::new(*self.pairs.allocator());
        for pair in &self.pairs {
            pairs.push(pair.copy()?)?;
        }
        Ok(PlainPairs { pairs })
    }

    /// A copy of the pairs of a range.
    pub(crate) fn range(&self, lo: &[u8], hi: &[u8]) -> Result<PlainPairs, NoMemory>
        ensures ok { IfOk result (λ part. part ≡ range self.now lo.now hi.now) }
    {
        let mut pairs = Vec::new(*self.pairs.allocator());
        for pair in &self.pairs {
            if is_between(lo, hi, pair.key()) {
                pairs.push(pair.copy()?)?;
            }
        }
        Ok(PlainPairs { pairs })
    }

    /// Adds the first pairs of a range to an empty buffer, and answers whether others follow.
    pub(crate) fn tell_range(&self, lo: &[u8], hi: &[u8], limit: usize, out: &mut PairBuf) -> bool
        requires none { out.old ≡ [] }
        requires fits { limit ≤ PAIRS_MAX }
        ensures ok { out.new ≡ take limit (range self.now lo.now hi.now) }
        ensures found { result ≡ nat_lt limit (length (range self.now lo.now hi.now)) }
    {
        for pair in &self.pairs {
            if is_between(lo, hi, pair.key()) {
                if out.len() == limit {
                    return true;
                }
                out.push(pair.key(), pair.value());
            }
        }
        false
    }

    /// Adds the pairs from an index on to an empty buffer, at most `limit`, and answers the index after them.
    pub(crate) fn tell_from(&self, at: usize, limit: usize, out: &mut PairBuf) -> usize
        requires none { out.old ≡ [] }
        requires fits { limit ≤ PAIRS_MAX }
        requires room { at ≤ length self.now }
        ensures ok { out.new ≡ take limit (drop at self.now) }
        ensures end { result ≡ min (at + limit) (length self.now) }
    {
        let end = at + limit.min(self.pairs.len() - at);
        for pair in &self.pairs[at..end] {
            out.push(pair.key(), pair.value());
        }
        end
    }
}
