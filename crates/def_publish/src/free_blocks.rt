//! Laws of writes into free blocks. Each is the contract of a function that does nothing.

ghost use Rattle.std.specs.Prelude.{◌≡◌, ℕ, Bool, false, List, [], ◌∷◌};
ghost use Rattle.std.specs.List.{Contains};
ghost use Rattle.def_crash.specs.Blocks.{KeepsTaken, TearsBlocks};
ghost use Rattle.def_crash.specs.Image.{Image};
ghost use Rattle.def_crash.specs.Moments.{Images, Since, OnlyReads};
ghost use Rattle.def_crash.specs.Trail.{Trail};
ghost use Rattle.def_bytes.specs.Arrays.{entries_on};
ghost use Rattle.def_meaning.specs.StateTable.{table_of};
ghost use Rattle.def_publish.specs.Contents.{Contents, contents_state};
ghost use Rattle.def_publish.specs.Standing.{ReadsAs, ShowsTable, AreFree, LeavesContent, ContentsStand};

use def_crash::laws::Viewed;

/// While free blocks are written each image reads as before, so each shows the one table, and afterwards
/// the contents stand as they did: also where some of the writes are not durable, or failed.
pub fn writes_of_free_blocks_keep_contents<D: Viewed>()
    ensures images { (old new : D) (x : Contents) (free : ℕ → Bool) → AreFree free x
        → TearsBlocks free (D.view old) (D.view new)
        → ((c : Image) → Images (D.view old) c → ReadsAs c x)
        → (c : Image) → Since (D.view new) (D.view old).moment c → ReadsAs c x }
    ensures trail { (old new : D) (x : Contents) (free : ℕ → Bool) → AreFree free x
        → TearsBlocks free (D.view old) (D.view new) → ContentsStand (D.view old) x
        → Trail ShowsTable (D.view new) (D.view old).moment (table_of (contents_state x) ∷ []) 0 }
    ensures stands { (old new : D) (x : Contents) (free : ℕ → Bool) → AreFree free x
        → TearsBlocks free (D.view old) (D.view new) → ContentsStand (D.view old) x
        → LeavesContent (D.view new) → ContentsStand (D.view new) x }
{}

/// The same of a disk that is only read, which a sync does too, also one that fails.
pub fn reads_keep_contents<D: Viewed>()
    ensures trail { (old new : D) (x : Contents) → OnlyReads (D.view old) (D.view new)
        → ContentsStand (D.view old) x
        → Trail ShowsTable (D.view new) (D.view old).moment (table_of (contents_state x) ∷ []) 0 }
    ensures stands { (old new : D) (x : Contents) → OnlyReads (D.view old) (D.view new)
        → ContentsStand (D.view old) x → LeavesContent (D.view new)
        → ContentsStand (D.view new) x }
{}

/// Blocks that are not free keep their entries, whether contents name them or not.
pub fn blocks_in_use_keep_their_entries()
    ensures { (free : ℕ → Bool) (blocks : List ℕ) (d c : Image)
        → ((b : ℕ) → Contains blocks b → free b ≡ false) → KeepsTaken free d c
        → entries_on c blocks ≡ entries_on d blocks }
{}
