//! The versions and the cursors of a plain table.

ghost use Rattle.std.specs.Prelude.{◌≡◌, ◌≤◌, ◌==◌, not, if◌then◌else◌, [], true, false, length, filter, nat_lt, take, drop, Some, None, IfOk, OnOk, OnErr};
ghost use Rattle.std.specs.List.{list_any};
ghost use Rattle.strat_base.specs.declared.limits.TheConstants.{PAIRS_MAX};
ghost use Rattle.strat_base.specs.PairBuf.{IsPair};
ghost use Rattle.strat_model.specs.Pairs.{set, unset, range};
ghost use Rattle.strat_model.specs.Table.{Row, Cursor};
ghost use Rattle.strat_model.specs.Step.{no_row, advanced};
ghost use Rattle.strat_model.specs.Plain.{is_living_row_under};

use crate::plain_pairs::PlainPairs;
use std::alloc::Global;
use std::marker::Model;
use strat_base::{NoMemory, PairBuf, Version};

/// A version: its parent, whether it was dropped, and its map.
#[derive(Drop)]
pub(crate) struct PlainRow {
    parent: Option<Version>,
    dropped: bool,
    pairs: PlainPairs,
}

impl Model for PlainRow {
    ghost use Rattle.strat_model.specs.Table.{Row};

    ghost Value = { Row };

    ghost view = { λ row. record { parent = row.parent; dropped = row.dropped; pairs = row.pairs } };
}

impl PlainRow {
    /// A root with the empty map.
    pub(crate) fn root(alloc: Global) -> PlainRow
        ensures ok { result ≡ no_row }
    {
        PlainRow {
            parent: None,
            dropped: false,
            pairs: PlainPairs::new(alloc),
        }
    }

    /// A child of this row, whose number is `version`, with a copy of the map.
    pub(crate) fn child(&self, version: Version) -> Result<PlainRow, NoMemory>
        ensures ok { IfOk result (λ row.
            row ≡ record { parent = Some version; dropped = false; pairs = self.now.pairs }) }
    {
        Ok(PlainRow {
            parent: Some(version),
            dropped: false,
            pairs: self.pairs.copy()?,
        })
    }

    /// The parent, if there is one.
    pub(crate) fn parent(&self) -> Option<Version>
        ensures ok { result ≡ self.now.parent }
    {
        self.parent
    }

    /// Whether the version was dropped.
    pub(crate) fn is_dropped(&self) -> bool
        ensures ok { result ≡ self.now.dropped }
    {
        self.dropped
    }

    /// Whether the version is a child of this one, and was not dropped.
    pub(crate) fn is_living_child_of(&self, version: Version) -> bool
        ensures ok { result ≡ is_living_row_under version self.now }
    {
        self.parent == Some(version) && !self.dropped
    }

    /// The map.
    pub(crate) fn pairs(&self) -> &PlainPairs
        ensures ok { result.now ≡ self.now.pairs }
    {
        &self.pairs
    }

    /// Drops the version: its map is empty then.
    pub(crate) fn drop_version(&mut self)
        ensures ok { self.new ≡ record self.old { dropped = true; pairs = [] } }
    {
        self.dropped = true;
        self.pairs.clear();
    }

    /// Gives a key a value.
    pub(crate) fn set(&mut self, key: &[u8], value: &[u8]) -> Result<(), NoMemory>
        requires fits { IsPair (key.now, value.now) }
        ensures ok { OnOk result
            (self.new ≡ record self.old { pairs = set key.now value.now self.old.pairs }) }
        ensures err { OnErr result (self.new ≡ self.old) }
    {
        self.pairs.set(key, value)
    }

    /// Takes a key away.
    pub(crate) fn unset(&mut self, key: &[u8])
        ensures ok { self.new ≡ record self.old { pairs = unset key.now self.old.pairs } }
    {
        self.pairs.unset(key)
    }
}

/// Whether a child of this version was not dropped.
pub(crate) fn has_living_child(rows: &[PlainRow], version: Version) -> bool
    ensures ok { result ≡ list_any (is_living_row_under version) rows.now }
{
    rows.iter().any(|row| row.is_living_child_of(version))
}

/// An open cursor: its number, the pairs of its range, and how many of them were taken.
#[derive(Drop)]
pub(crate) struct PlainCursor {
    number: u64,
    pairs: PlainPairs,
    taken: usize,
}

impl Model for PlainCursor {
    ghost use Rattle.std.specs.Prelude.{◌≤◌, length, drop};
    ghost use Rattle.strat_model.specs.Table.{Cursor};

    ghost Value = { Cursor };

    ghost view = { λ c. record { number = c.number; left = drop c.taken c.pairs } };

    ghost invariant = { λ c. c.taken ≤ length c.pairs };
}

impl PlainCursor {
    /// A cursor over the pairs of a range.
    pub(crate) fn new(
        number: u64,
        row: &PlainRow,
        lo: &[u8],
        hi: &[u8],
    ) -> Result<PlainCursor, NoMemory>
        ensures ok { IfOk result (λ cursor. cursor ≡ record {
          number = number;
          left = range row.now.pairs lo.now hi.now;
        }) }
    {
        Ok(PlainCursor {
            number,
            pairs: row.pairs().range(lo, hi)?,
            taken: 0,
        })
    }

    /// The number.
    pub(crate) fn number(&self) -> u64
        ensures ok { result ≡ self.now.number }
    {
        self.number
    }

    /// Adds the next pairs to an empty buffer, and answers whether others follow.
    pub(crate) fn tell(&self, limit: usize, out: &mut PairBuf) -> bool
        requires none { out.old ≡ [] }
        requires fits { limit ≤ PAIRS_MAX }
        ensures ok { out.new ≡ take limit self.now.left }
        ensures found { result ≡ nat_lt limit (length self.now.left) }
    {
        self.pairs.tell_from(self.taken, limit, out) < self.pairs.len()
    }

    /// Takes the next pairs, if this is the cursor with that number.
    fn skip(&mut self, number: u64, limit: usize)
        ensures ok { self.new ≡ (if self.old.number == number then
            record self.old { left = drop limit self.old.left } else self.old) }
    {
        if self.number == number {
            self.taken += limit.min(self.pairs.len() - self.taken);
        }
    }
}

/// Takes the next pairs of the cursor with this number.
pub(crate) fn advance(cursors: &mut [PlainCursor], number: u64, limit: usize)
    ensures ok { cursors.new ≡ advanced cursors.old number limit }
{
    for cursor in cursors.iter_mut() {
        cursor.skip(number, limit);
    }
}

/// Whether a cursor has this number.
pub(crate) fn has_cursor(cursors: &[PlainCursor], number: u64) -> bool
    ensures ok { result ≡ list_any (λ c. c.number == number) cursors.now }
{
    cursors.iter().any(|cursor| cursor.number() == number)
}

/// Removes the cursor with this number.
pub(crate) fn close(cursors: &mut Vec<PlainCursor>, number: u64)
    ensures ok { cursors.new.items ≡ filter (λ c. not (c.number == number)) cursors.old.items }
    ensures room { length cursors.new.items ≤ length cursors.old.items }
{
    cursors.retain(|cursor| cursor.number() != number);
}
