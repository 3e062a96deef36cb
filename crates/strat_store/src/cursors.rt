//! Cursors of a store: they are opened, tell their pairs page by page, and are closed.

ghost use Rattle.std.specs.Prelude.{◌≡◌, ◌≢◌, ◌≤◌, ℕ, List, [], length, false};
ghost use Rattle.strat_array.specs.Kept.{Blocks};
ghost use Rattle.def_crash.specs.Image.{Image};
ghost use Rattle.def_crash.specs.Moments.{Exposes};
ghost use Rattle.strat_cursor.specs.Cursors.{arrays_named, arrays_of_number, is_opened};
ghost use Rattle.strat_cursor.specs.Looking.{LooksThrough, ReadsArrays};
ghost use Rattle.def_bytes.specs.Arrays.{block_on};
ghost use Rattle.strat_model.specs.Answer.{as_told, plain};
ghost use Rattle.strat_model.specs.Request.{OpenCursor, NextPairs, CloseCursor};
ghost use Rattle.strat_model.specs.Table.{Cursor};
ghost use Rattle.strat_model.specs.declared.replies.Refusal.TheVariants as why;
ghost use Rattle.strat_model.specs.declared.replies.Reply.TheVariants as reply;
ghost use Rattle.def_publish.specs.Contents.{Contents};
ghost use Rattle.strat_store.specs.Applying.{FailsAsTold, is_fault};
ghost use Rattle.strat_publish.specs.Outcomes.{IsDamagedIn};
ghost use Rattle.strat_store.specs.Cursoring.{IsAppliedAt, cursors_after, reply_of_close, reply_of_next, reply_of_start};
ghost use Rattle.strat_memory.specs.Held.{IsConsistent, StandsAt};
ghost use Rattle.strat_store.specs.Ranging.{HasPairsFor, TellsFrom};
ghost use Rattle.strat_memory.specs.RecoveredFields.{held_of};
ghost use Rattle.strat_store.specs.Applying.{held_after};

use strat_array::Cache;
use strat_base::{PairBuf, Version};
use strat_cursor::{CursorFault, NextFault, ScanBuffers};
use strat_disk::Disk;
use strat_memory::open_store::OpenStore;
use strat_model::{Refusal, Reply};

/// What is told of an opening.
fn reply_of_start(started: Result<u64, CursorFault>) -> Reply
    ensures ok { result ≡ reply_of_start started }
{
    match started {
        Ok(cursor) => Reply::Opened { cursor },
        Err(CursorFault::CursorLimit) => Reply::Refused(Refusal::CursorLimit),
        Err(CursorFault::NoMemory) => Reply::Refused(Refusal::NoMemory),
    }
}

/// What is told of a page.
fn reply_of_next(told: Result<bool, NextFault>) -> Reply
    ensures ok { result ≡ reply_of_next told }
{
    match told {
        Ok(more) => Reply::Pairs { more },
        Err(NextFault::UnknownCursor) => Reply::Refused(Refusal::UnknownCursor),
        Err(NextFault::Device) => Reply::Refused(Refusal::DeviceFault),
        Err(NextFault::Damaged { block }) => Reply::Refused(Refusal::Damaged { block }),
    }
}

/// What is told of a closing.
fn reply_of_close(there: bool) -> Reply
    ensures ok { result ≡ reply_of_close there }
{
    if there {
        Reply::Done
    } else {
        Reply::Refused(Refusal::UnknownCursor)
    }
}

/// Opens a cursor over the pairs of a version as they are now, from `lo` on and below `hi`. It reads no block: O(items of
/// level 0 and of a sealed one), and the time of copying at most 22 descriptors. UnknownVersion: there is no such
/// version. CursorLimit: 64 are open. NoMemory: memory ran out. After a refusal all is as before.
pub(crate) fn reply_to_open_cursor(
    held: &mut OpenStore,
    version: Version,
    lo: &[u8],
    hi: &[u8],
) -> Reply
    requires kept { (cached : Blocks) → IsConsistent (held_of held.old cached) }
    ensures found { (f : Image) (cached : Blocks) → TellsFrom f (held_of held.old cached)
        (OpenCursor version lo.now hi.now) (plain result) }
    ensures kept { (cached : Blocks) → IsConsistent (held_of held.new cached) }
    ensures state { held.new ≡ record held.old {
      memory = record held.old.memory {
        cursors = cursors_after held.old.memory held.old.published.levels
            (OpenCursor version lo.now hi.now) (plain result);
      };
    } }
    ensures cause { (is_fault result ≡ false) × (result ≢ reply.Found) }
{
    if !held.memory.has(version) {
        return Reply::Refused(Refusal::UnknownVersion);
    }
    let started = held
        .memory
        .open_cursor(&held.published.levels, version, lo, hi);
    reply_of_start(started)
}

/// The next pairs of a cursor, at most `limit`, which are put into `out`, and whether others follow. Costs what
/// `strat_cursor::scan` does, over the lists and arrays that the cursor holds on to, and takes no memory but for blocks that
/// are cached. UnknownCursor: no cursor has the number. DeviceFault: the disk counted a fault.
/// Damaged: this block of one of these arrays is no block of entries.
pub(crate) fn reply_to_next_pairs<D: Disk>(
    held: &mut OpenStore,
    cache: &mut Cache,
    buffers: &mut ScanBuffers,
    disk: &mut D,
    number: u64,
    limit: u16,
    out: &mut PairBuf,
) -> Reply
    requires kept { (cached : Blocks) → IsConsistent (held_of held.old cached) }
    requires fits { (1 ≤ limit) × (limit ≤ 256) }
    requires room { out.old ≡ [] }
    ensures ok { (x : Contents) (rows : List Cursor)
        → StandsAt (D.view disk.old) (held_of held.old cache.old) x rows
        → IsAppliedAt (D.view disk.new) (held_of held.old cache.old) x rows
        (NextPairs number limit) (as_told result out.new) (held_after held.new cache.new result) }
    ensures found { (f : Image) → Exposes (D.view disk.old) f → is_fault result ≡ false
        → TellsFrom f (held_of held.old cache.old) (NextPairs number limit)
        (as_told result out.new) }
    ensures kept { (cached : Blocks) → IsConsistent (held_of held.new cached) }
    ensures state { held.new ≡ record held.old {
      memory = record held.old.memory {
        cursors = cursors_after held.old.memory held.old.published.levels
            (NextPairs number limit) (as_told result out.new);
      };
    } }
    ensures same { LooksThrough (D.view disk.old) (D.view disk.new)
        (arrays_named held.old.memory.cursors.opened) cache.old cache.new }
    ensures cause { FailsAsTold (D.faults disk.old) (D.faults disk.new) result
        × (is_opened number held.old.memory.cursors.opened ≡ false
        → result ≡ reply.Refused why.UnknownCursor) }
    ensures damaged { (b : ℕ) → result ≡ reply.Refused (why.Damaged b)
        → IsDamagedIn (D.view disk.old).content held.old.memory held.old.published.levels b
        × ((f : Image) → Exposes (D.view disk.old) f → block_on f b ≡ None) }
    ensures reads { ReadsArrays (arrays_of_number number held.old.memory.cursors.opened)
        (D.reads disk.old) (D.reads disk.new) }
    ensures len { (result ≢ reply.Found) × (result ≢ reply.Refused why.NoMemory)
        × HasPairsFor (NextPairs number limit) (as_told result out.new) }
{
    let told = held
        .memory
        .next_pairs(disk, cache, number, limit, buffers, out);
    reply_of_next(told)
}

/// Closes a cursor. The blocks of arrays that were kept for it alone are free from the next checkpoint on. UnknownCursor:
/// no cursor has the number.
pub(crate) fn reply_to_close_cursor(held: &mut OpenStore, number: u64) -> Reply
    requires kept { (cached : Blocks) → IsConsistent (held_of held.old cached) }
    ensures found { (f : Image) (cached : Blocks) → TellsFrom f (held_of held.old cached)
        (CloseCursor number) (plain result) }
    ensures kept { (cached : Blocks) → IsConsistent (held_of held.new cached) }
    ensures state { held.new ≡ record held.old {
      memory = record held.old.memory {
        cursors = cursors_after held.old.memory held.old.published.levels (CloseCursor number)
            (plain result);
      };
    } }
    ensures cause { (is_fault result ≡ false) × (result ≢ reply.Found)
        × (result ≢ reply.Refused why.NoMemory) }
{
    let there = held.memory.close_cursor(number);
    reply_of_close(there)
}
