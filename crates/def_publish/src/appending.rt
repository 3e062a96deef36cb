//! Laws of changes that join the journal. Each is the contract of a function that does nothing.

ghost use Rattle.std.specs.Prelude.{◌≡◌, ◌⊎◌, ◌<◌, ℕ, ◌+◌, List, [], ◌∷◌, ◌++◌, length};
ghost use Rattle.strat_base.specs.Change.{Change};
ghost use Rattle.def_crash.specs.Image.{Image};
ghost use Rattle.def_crash.specs.Moments.{Exposes, Since, Passes, TearsOnly};
ghost use Rattle.def_crash.specs.Trail.{Trail};
ghost use Rattle.def_bytes.specs.Layout.{region_at, region_size};
ghost use Rattle.strat_journal.specs.Log.{Log, Stands, GivesAllOrNone, batch_joined, batch_region};
ghost use Rattle.strat_model.specs.Table.{Table};
ghost use Rattle.def_meaning.specs.StateTable.{table_of};
ghost use Rattle.def_state.specs.Sound.{IsSound, Takes};
ghost use Rattle.def_state.specs.State.{appended};
ghost use Rattle.def_publish.specs.Appending.{IsLogOf, with_batch, AppendsBatch};
ghost use Rattle.def_publish.specs.Contents.{Contents, contents_state};
ghost use Rattle.def_publish.specs.Batches.{TakesBatch, tables_through};
ghost use Rattle.def_publish.specs.Standing.{ReadsAs, ShowsTable, LeavesContent, ContentsStand};

use def_crash::laws::{Showable, Viewed};

/// A journal in memory that is that of contents stands on their disk, as `append` asks. A batch of one
/// change is that change in the state's journal, and leaves a state sound that takes it.
pub fn contents_hold_their_journal<D: Viewed>()
    ensures stands { (d : D) (x : Contents) (log : Log) → ContentsStand (D.view d) x
        → IsLogOf x log → Stands (D.view d) log }
    ensures state { (x : Contents) (change : Change)
        → contents_state (with_batch x (change ∷ [])) ≡ appended (contents_state x) change }
    ensures sound { (x : Contents) (change : Change) → Takes (contents_state x) change
        → IsSound (contents_state (with_batch x (change ∷ []))) }
{}

/// The clauses of `append` say just this.
pub fn appending_is_what_append_does<D: Viewed>()
    ensures { (old new : D) (log : Log)
        → TearsOnly (D.view old) (D.view new)
        (region_at log.mem (batch_region log)) (region_size log.mem)
        → Passes (D.view old) (D.view new)
        → ((f : Image) → Exposes (D.view old) f → Stands (D.view old) log
        → (c : Image) → Since (D.view new) (D.view old).moment c → GivesAllOrNone log c)
        → AppendsBatch (D.view old) (D.view new) log }
{}

/// While a batch is appended each image reads as before, or with the whole batch: a trail of two
/// tables, which has reached the second where the call succeeded. Then the contents with the batch stand.
pub fn an_appended_batch_is_a_trail_of_two_tables<D: Viewed>()
    ensures images { (old new : D) (x : Contents) (log : Log) → ContentsStand (D.view old) x
        → IsLogOf x log → AppendsBatch (D.view old) (D.view new) log
        → IsSound (contents_state (with_batch x log.batch))
        → (c : Image) → Since (D.view new) (D.view old).moment c
        → ReadsAs c x ⊎ ReadsAs c (with_batch x log.batch) }
    ensures trail { (old new : D) (x : Contents) (log : Log) → ContentsStand (D.view old) x
        → IsLogOf x log → AppendsBatch (D.view old) (D.view new) log
        → IsSound (contents_state (with_batch x log.batch))
        → Trail ShowsTable (D.view new) (D.view old).moment
        (table_of (contents_state x) ∷ table_of (contents_state (with_batch x log.batch)) ∷ []) 0 }
    ensures ok { (old new : D) (x : Contents) (log : Log) → ContentsStand (D.view old) x
        → IsLogOf x log → AppendsBatch (D.view old) (D.view new) log
        → IsSound (contents_state (with_batch x log.batch))
        → Stands (D.view new) (batch_joined log)
        → Trail ShowsTable (D.view new) (D.view old).moment
        (table_of (contents_state x) ∷ table_of (contents_state (with_batch x log.batch)) ∷ []) 1 }
    ensures stands { (old new : D) (x : Contents) (log : Log) → ContentsStand (D.view old) x
        → IsLogOf x log → AppendsBatch (D.view old) (D.view new) log
        → IsSound (contents_state (with_batch x log.batch))
        → Stands (D.view new) (batch_joined log) → LeavesContent (D.view new)
        → ContentsStand (D.view new) (with_batch x log.batch) }
{}

/// A batch leaves a sound state with all of its changes. While it is appended each image shows the table before it or the one
/// after it, and so, as far as anyone can tell, the tables after each of its changes in order: a trail, which has
/// reached the last of them where the call succeeded.
pub fn an_appended_batch_is_a_trail_of_its_tables<D: Viewed>()
    ensures sound { (x : Contents) (batch : List Change) → TakesBatch (contents_state x) batch
        → IsSound (contents_state (with_batch x batch)) }
    ensures last { (x : Contents) (first : Change) (others : List Change)
        → TakesBatch (contents_state x) (first ∷ others) → (between : List Table)
        × (tables_through (table_of (contents_state x)) (first ∷ others)
        ≡ between ++ table_of (contents_state (with_batch x (first ∷ others))) ∷ [])
        × (length between ≡ length others) }
    ensures trail { (old new : D) (x : Contents) (log : Log) → ContentsStand (D.view old) x
        → IsLogOf x log → AppendsBatch (D.view old) (D.view new) log
        → TakesBatch (contents_state x) log.batch → 0 < length log.batch
        → Trail ShowsTable (D.view new) (D.view old).moment
        (table_of (contents_state x) ∷ tables_through (table_of (contents_state x)) log.batch) 0 }
    ensures ok { (old new : D) (x : Contents) (log : Log) → ContentsStand (D.view old) x
        → IsLogOf x log → AppendsBatch (D.view old) (D.view new) log
        → TakesBatch (contents_state x) log.batch → 0 < length log.batch
        → Stands (D.view new) (batch_joined log)
        → Trail ShowsTable (D.view new) (D.view old).moment
        (table_of (contents_state x) ∷ tables_through (table_of (contents_state x)) log.batch)
        (length log.batch) }
{}

/// A trail of two tables that has reached the second is one over any tables put in between. One that has not reached those
/// at its end is one over tables put in before them.
pub fn tables_may_be_put_into_a_trail<D: Viewed, T: Showable>()
    ensures ok { (d : D) (start : ℕ) (first last : T) (between : List T)
        → Trail T.shows (D.view d) start (first ∷ last ∷ []) 1
        → Trail T.shows (D.view d) start (first ∷ (between ++ last ∷ [])) (1 + length between) }
    ensures err { (d : D) (start n : ℕ) (xs between zs : List T) → n < length xs
        → Trail T.shows (D.view d) start (xs ++ zs) n
        → Trail T.shows (D.view d) start (xs ++ (between ++ zs)) n }
{}
