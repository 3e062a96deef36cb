//! Open cursors, and the arrays that are kept for them.

ghost use Rattle.std.specs.List.{position};
ghost use Rattle.std.specs.Option.{option_copied};
ghost use Rattle.std.specs.Prelude.{◌≡◌, ◌<◌, ◌≤◌, ◌+◌, ◌-◌, ◌^◌, ◌==◌, ◌↔◌, ℕ, [], false, length, Contains, IfOk, OnOk, OnErr, IfSome, IsErrOf, IsTrue, vec_capacity};
ghost use Rattle.strat_arena.specs.PoolView.{shares_at, count_shared};
ghost use Rattle.strat_base.specs.Tree.{Parents};
ghost use Rattle.strat_base.specs.declared.limits.TheConstants.{CURSORS_MAX as the_most};
ghost use Rattle.def_crash.specs.Faults.{HasCause};
ghost use Rattle.def_crash.specs.Image.{Image};
ghost use Rattle.def_crash.specs.Moments.{Exposes};
ghost use Rattle.strat_model.specs.Pairs.{Pairs};
ghost use Rattle.strat_cursor.specs.Cursors.{OpenCursor, IsMapPinned, MayGoOn, TellsNext, are_named, arrays_named, arrays_of_number, closed_at, is_array_named, is_opened, moved_at, retired_by, those_named};
ghost use Rattle.strat_cursor.specs.CursorFaults.{as_next_fault};
ghost use Rattle.strat_cursor.specs.Looking.{LooksThrough, NamesNoBlock, ReadsArrays, arrays_asked};
ghost use Rattle.strat_cursor.specs.Ranges.{FillsPage};
ghost use Rattle.strat_cursor.specs.Pins.{HoldShares, ArePinned, IsSamePool, IsStarted, MayBePinned, SharesFollow};
ghost use Rattle.strat_cursor.specs.declared.cursors.CursorFault.TheVariants as start_fault;
ghost use Rattle.strat_cursor.specs.declared.cursors.NextFault.TheVariants as next_fault;

use crate::cursor::Cursor;
use crate::scan_buffers::ScanBuffers;
use crate::starting::{Origin, open_cursor};
use std::alloc::Global;
use std::marker::Model;
use strat_arena::ArenaPool;
use strat_array::Cache;
use strat_base::limits::CURSORS_MAX;
use strat_base::{ArrayDesc, Fault, NoMemory, PairBuf, Version};
use strat_disk::Disk;
use strat_level::{Levels, Zero};
use strat_tree::Tree;
use thiserror::Error;

/// Greatest number of a cursor.
const NUMBER_MAX: u64 = 1 << 63;

/// Why no cursor was opened.
#[derive(Clone, Copy, Debug, PartialEq, Eq, Error)]
pub enum CursorFault {
    /// As many cursors are open as there may be.
    #[error("64 cursors are open")]
    CursorLimit,
    /// Memory ran out.
    #[error("out of memory")]
    NoMemory,
}

impl From<NoMemory> for CursorFault {
    ghost from_gives = { λ _ e. e ≡ start_fault.NoMemory };

    fn from(_: NoMemory) -> CursorFault {
        CursorFault::NoMemory
    }
}

/// Why a cursor told no page.
#[derive(Clone, Copy, Debug, PartialEq, Eq, Error)]
pub enum NextFault {
    /// No open cursor has the number.
    #[error("no cursor has this number")]
    UnknownCursor,
    /// The disk failed.
    #[error("the device failed")]
    Device,
    /// The bytes of this block are not what should stand there.
    #[error("block {block} is damaged")]
    Damaged { block: u32 },
}

impl From<Fault> for NextFault {
    ghost from_gives = { λ fault e. e ≡ as_next_fault fault };

    fn from(fault: Fault) -> NextFault {
        match fault {
            Fault::Device => NextFault::Device,
            Fault::Damaged { block } => NextFault::Damaged { block },
        }
    }
}

/// Up to 64 open cursors, and descriptors of arrays that no level names any more but one of them does.
#[derive(Drop)]
pub struct Cursors {
    alloc: Global,
    opened: Vec<Cursor>,
    next: u64,
    retired: Vec<ArrayDesc>,
}

impl Model for Cursors {
    ghost use Rattle.strat_cursor.specs.Cursors.{CursorsView};

    ghost Value = { CursorsView };

    ghost use Rattle.strat_cursor.specs.CursorsFields.{cursors_seen, AreOpened};

    ghost view = { cursors_seen };

    ghost invariant = { AreOpened };
}

/// The place of the cursor of a number. O(cursors).
fn place_of(opened: &[Cursor], number: u64) -> Option<usize>
    ensures ok { result ≡ position (λ c. c.number == number) opened.now }
    ensures len { IfSome result (λ i. i < length opened.now) }
{
    opened.iter().position(|c| c.number() == number)
}

/// Whether a cursor names the array of a number. O(arrays of all cursors).
fn is_named(opened: &[Cursor], id: u64) -> bool
    ensures ok { result ≡ is_array_named opened.now id }
{
    opened.iter().any(|c| c.names(id))
}

/// Lets go of each array that no cursor names.
fn keep_named(retired: &mut Vec<ArrayDesc>, opened: &[Cursor])
    ensures ok { retired.new.items ≡ those_named opened.now retired.old.items }
    ensures room { vec_capacity retired.new ≡ vec_capacity retired.old }
{
    retired.retain(|a| is_named(opened, a.id));
}

impl Cursors {
    /// No cursors, and room for 64.
    pub fn new(alloc: Global) -> Result<Cursors, NoMemory>
        ensures ok { IfOk result (λ c. c ≡ record {
          opened = [];
          next = 1;
          retired = [];
          room = 0;
        }) }
    {
        let opened = Vec::with_capacity(alloc, CURSORS_MAX)?;
        let retired = Vec::with_capacity(alloc, 0)?;
        Ok(Cursors {
            alloc,
            opened,
            next: 1,
            retired,
        })
    }

    /// How many are open. O(1).
    pub fn len(&self) -> usize
        ensures ok { result ≡ length self.now.opened }
        ensures room { result ≤ the_most }
    {
        self.opened.len()
    }

    /// Whether as many are open as there may be. O(1).
    fn is_full(&self) -> bool
        ensures ok { result ≡ (length self.now.opened == the_most) }
    {
        self.opened.len() == CURSORS_MAX
    }

    /// The arrays that are kept for open cursors. O(1).
    pub fn retired(&self) -> &[ArrayDesc]
        ensures ok { result.now ≡ self.now.retired }
        ensures kept { IsTrue (are_named self.now.opened self.now.retired) }
    {
        &self.retired
    }

    /// Opens a cursor over the pairs of a version as they are now, from `lo` on and below `hi`, or without an upper
    /// bound where `hi` is empty, and answers its number: 1, 2, 3 and so on. It pins the items of level 0, and of a
    /// sealed level 0, in their arenas, and copies of the descriptors of its version's arrays. After a refusal all is
    /// as before. O(items), 12 bytes for each, and the time of copying at most 22 descriptors: no block is read.
    /// `NoMemory` also stands for more than 2^63 cursors that were opened.
    pub fn start(
        &mut self,
        pool: &mut ArenaPool,
        tree: &Tree,
        zero: &Zero,
        sealed: Option<&Zero>,
        levels: &Levels,
        version: Version,
        lo: &[u8],
        hi: &[u8],
    ) -> Result<u64, CursorFault>
        requires kept { ArePinned pool.old tree.now.parents self.old.opened }
        requires found { MayBePinned pool.old tree.now.parents zero.now (option_copied sealed)
            levels.now version }
        requires room { (n : ℕ) → shares_at pool.old n + 1 < 2 ^ 32 - 1 }
        ensures ok { IfOk result (λ n. (n ≡ self.old.next)
            × IsStarted self.old self.new version lo.now hi.now zero.now
            (option_copied sealed.entry) (arrays_asked tree.now.parents levels.now version)) }
        ensures kept { OnOk result (ArePinned pool.new tree.now.parents self.new.opened) }
        ensures same { OnOk result (SharesFollow pool.old pool.new self.old.opened
            self.new.opened) }
        ensures len { count_shared pool.new ≡ count_shared pool.old }
        ensures cause { IsErrOf result start_fault.CursorLimit
            ↔ (length self.old.opened ≡ the_most) }
        ensures err { OnErr result ((self.new ≡ self.old) × IsSamePool pool.old pool.new) }
    {
        if self.is_full() {
            return Err(CursorFault::CursorLimit);
        }
        if self.next > NUMBER_MAX {
            return Err(CursorFault::NoMemory);
        }
        let number = self.next;
        let origin = Origin {
            tree,
            zero,
            sealed,
            levels,
        };
        let cursor = open_cursor(self.alloc, pool, &origin, number, version, lo, hi)?;
        self.opened.push_reserved(cursor);
        self.next += 1;
        Ok(number)
    }

    /// Puts the first pairs that a cursor has left into `out`, at most `limit`: it then has the others left. Answers
    /// whether there are any. It reads of the cursor's arrays what `scan` does, and takes no memory but for cached blocks.
    /// After an error all cursors are as before. Device: the disk counted a fault. Damaged: this block of one of the cursor's
    /// arrays is no block of entries.
    pub fn next<D: Disk>(
        &mut self,
        disk: &mut D,
        cache: &mut Cache,
        pool: &ArenaPool,
        tree: &Tree,
        number: u64,
        limit: u16,
        buffers: &mut ScanBuffers,
        out: &mut PairBuf,
    ) -> Result<bool, NextFault>
        requires kept { ArePinned pool.now tree.now.parents self.old.opened }
        requires fits { (1 ≤ limit) × (limit ≤ 256) }
        requires room { out.old ≡ [] }
        ensures ok { IfOk result (λ more. FillsPage limit (length out.new) more
            × ((c : OpenCursor) → Contains self.old.opened c
            → c.number ≡ number → (f : Image) (next : ℕ) (m : Pairs)
            → Exposes (D.view disk.old) f → MayGoOn f next c cache.old
            → IsMapPinned f tree.now.parents pool.now c m → TellsNext m c limit out.new more)) }
        ensures kept { ArePinned pool.now tree.now.parents self.new.opened }
        ensures state { IfOk result (λ more. self.new
            ≡ record self.old { opened = moved_at number more out.new self.old.opened }) }
        ensures found { IsErrOf result next_fault.UnknownCursor
            ↔ (is_opened number self.old.opened ≡ false) }
        ensures err { OnErr result ((self.new ≡ self.old) × (out.new ≡ [])) }
        ensures same { LooksThrough (D.view disk.old) (D.view disk.new)
            (arrays_named self.old.opened) cache.old cache.new }
        ensures damaged { (b : ℕ) (c : OpenCursor) → IsErrOf result (next_fault.Damaged b)
            → Contains self.old.opened c → c.number ≡ number
            → NamesNoBlock (D.view disk.old).content c.arrays b }
        ensures cause { HasCause next_fault.Device (D.faults disk.old) (D.faults disk.new) result }
        ensures reads { ReadsArrays (arrays_of_number number self.old.opened)
            (D.reads disk.old) (D.reads disk.new) }
    {
        let Some(place) = place_of(&self.opened, number) else {
            return Err(NextFault::UnknownCursor);
        };
        let cursor = &mut self.opened[place];
        let more = cursor.tell_page(disk, cache, pool, tree, limit, buffers, out)?;
        cursor.advance(more, out);
        Ok(more)
    }

    /// Closes a cursor: its shares go back, and the retired arrays that no other one names are kept no longer. Answers
    /// whether there was one. O(retired arrays * arrays of all cursors).
    pub fn close(&mut self, pool: &mut ArenaPool, number: u64) -> bool
        requires kept { HoldShares pool.old self.old.opened }
        ensures ok { result ≡ is_opened number self.old.opened }
        ensures state { self.new ≡ closed_at number self.old }
        ensures none { result ≡ false → (self.new ≡ self.old) × (pool.new ≡ pool.old) }
        ensures kept { HoldShares pool.new self.new.opened × ((parents : Parents)
            → ArePinned pool.old parents self.old.opened
            → ArePinned pool.new parents self.new.opened) }
        ensures same { SharesFollow pool.old pool.new self.old.opened self.new.opened }
        ensures len { count_shared pool.new ≤ count_shared pool.old }
    {
        let Some(place) = place_of(&self.opened, number) else {
            return false;
        };
        let cursor = self.opened.remove(place);
        cursor.release(pool);
        keep_named(&mut self.retired, &self.opened);
        true
    }

    /// Makes room for so many more retired arrays.
    pub fn reserve_retired(&mut self, n: usize) -> Result<(), NoMemory>
        ensures ok { OnOk result (length self.old.retired + n ≤ self.new.room) }
        ensures same { self.new ≡ record self.old { room = self.new.room } }
        ensures room { self.old.room ≤ self.new.room }
    {
        self.retired.reserve(n)?;
        Ok(())
    }

    /// Keeps the descriptor of an array that no level names any more, where an open cursor names it. It takes no
    /// memory.
    pub fn retire(&mut self, desc: ArrayDesc)
        requires room { length self.old.retired < self.old.room }
        ensures ok { self.new ≡ retired_by desc self.old }
    {
        if is_named(&self.opened, desc.id) {
            self.retired.push_reserved(desc);
        }
    }
}
