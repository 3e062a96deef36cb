//! Laws of a checkpoint. Each is the contract of a function that does nothing.

ghost use Rattle.std.specs.Prelude.{◌≡◌, ◌≢◌, ◌<◌, ◌⊎◌, ◌*◌, ℕ, Bool, [], ◌∷◌, Some, Ok};
ghost use Rattle.def_crash.specs.Blocks.{TearsBlocks};
ghost use Rattle.def_crash.specs.Image.{Image};
ghost use Rattle.def_crash.specs.Moments.{Images, Since, Passes, TearsOnly, OnlyReads, IsDurable};
ghost use Rattle.def_crash.specs.Trail.{Trail};
ghost use Rattle.def_bytes.specs.Layout.{region_at, open_flag};
ghost use Rattle.def_bytes.specs.SuperBlock.{Super, IsLawful, newest_in};
ghost use Rattle.strat_gate.specs.Laying.{LaysOver, OldOrNew};
ghost use Rattle.strat_journal.specs.Log.{Log, IsRegionShut, region_turned};
ghost use Rattle.def_meaning.specs.StateTable.{table_of};
ghost use Rattle.def_publish.specs.Appending.{IsLogOf};
ghost use Rattle.def_publish.specs.Contents.{Contents, contents_state};
ghost use Rattle.def_publish.specs.Publication.{Succeeds, IsPrepared, LaysSuper, HasLaid};
ghost use Rattle.def_publish.specs.Standing.{LiesIn, ReadsAs, ShowsTable, AreFree, LeavesContent, ContentsStand};

use def_crash::laws::Viewed;

/// Next contents that lie on the disk beside those that stand there are prepared once a sync succeeded.
/// Then their superblock may be laid over the newest.
pub fn a_sync_prepares_the_next_contents<D: Viewed>()
    ensures prepared { (old new : D) (x y : Contents) (s : ContentsStand (D.view old) x)
        → Succeeds x y → LiesIn s.content y → OnlyReads (D.view old) (D.view new)
        → IsDurable (D.view new) → LeavesContent (D.view new) → IsPrepared (D.view new) x y }
    ensures over { (d : D) (x y : Contents) (p : IsPrepared (D.view d) x y)
        → LaysOver (D.view d) p.stands.content y.slot y.sb }
    ensures fits { (d : D) (x y : Contents) → IsPrepared (D.view d) x y
        → (y.slot < 2) × IsLawful y.sb }
{}

/// The clauses of `lay`, which take its superblock as it is seen, say just this.
pub fn laying_is_what_lay_does<D: Viewed>()
    ensures lays { (old new : D) (slot : ℕ) (sb : Super)
        → TearsOnly (D.view old) (D.view new) (4096 * slot) 4096 → Passes (D.view old) (D.view new)
        → ((f : Image) → LaysOver (D.view old) f slot sb
        → (c : Image) → Since (D.view new) (D.view old).moment c → OldOrNew f slot sb c)
        → LaysSuper (D.view old) (D.view new) slot sb }
    ensures laid { (old new : D) (slot : ℕ) (sb : Super) → IsDurable (D.view new)
        → ((f : Image) → LaysOver (D.view old) f slot sb
        → (c : Image) → Images (D.view new) c → newest_in c ≡ Ok (Some (slot, sb)))
        → HasLaid (D.view old) (D.view new) slot sb }
{}

/// While the superblock of prepared contents is laid each image reads as the old contents or as the new
/// ones, and once that succeeded as the new ones; while the region of the old journal is shut as the new ones.
pub fn a_publication_leaves_the_old_contents_or_the_new<D: Viewed>()
    ensures laying { (mid lay : D) (x y : Contents) → IsPrepared (D.view mid) x y
        → LaysSuper (D.view mid) (D.view lay) y.slot y.sb
        → (c : Image) → Since (D.view lay) (D.view mid).moment c → ReadsAs c x ⊎ ReadsAs c y }
    ensures laid { (mid lay : D) (x y : Contents) → IsPrepared (D.view mid) x y
        → LaysSuper (D.view mid) (D.view lay) y.slot y.sb
        → HasLaid (D.view mid) (D.view lay) y.slot y.sb
        → (c : Image) → Images (D.view lay) c → ReadsAs c y }
    ensures shutting { (mid lay end : D) (x y : Contents) → IsPrepared (D.view mid) x y
        → LaysSuper (D.view mid) (D.view lay) y.slot y.sb
        → HasLaid (D.view mid) (D.view lay) y.slot y.sb
        → TearsOnly (D.view lay) (D.view end) (region_at x.sb.mem x.sb.region) 1
        → Passes (D.view lay) (D.view end)
        → (c : Image) → Since (D.view end) (D.view lay).moment c → ReadsAs c y }
{}

/// A checkpoint is a trail of one table, wherever it ends: writes of free blocks, the laying of the next
/// superblock, which may fail, and the shutting of the old region, which may fail too.
pub fn a_publication_is_a_trail_of_one_table<D: Viewed>()
    ensures laying { (old mid lay : D) (x y : Contents) (free : ℕ → Bool)
        → ContentsStand (D.view old) x → AreFree free x
        → TearsBlocks free (D.view old) (D.view mid) → IsPrepared (D.view mid) x y
        → LaysSuper (D.view mid) (D.view lay) y.slot y.sb
        → Trail ShowsTable (D.view lay) (D.view old).moment (table_of (contents_state x) ∷ []) 0 }
    ensures trail { (old mid lay end : D) (x y : Contents) (free : ℕ → Bool)
        → ContentsStand (D.view old) x → AreFree free x
        → TearsBlocks free (D.view old) (D.view mid) → IsPrepared (D.view mid) x y
        → LaysSuper (D.view mid) (D.view lay) y.slot y.sb
        → HasLaid (D.view mid) (D.view lay) y.slot y.sb
        → TearsOnly (D.view lay) (D.view end) (region_at x.sb.mem x.sb.region) 1
        → Passes (D.view lay) (D.view end)
        → Trail ShowsTable (D.view end) (D.view old).moment (table_of (contents_state x) ∷ []) 0 }
{}

/// At its end the new contents stand.
pub fn published_contents_stand<D: Viewed>()
    ensures { (mid lay end : D) (x y : Contents) → IsPrepared (D.view mid) x y
        → LaysSuper (D.view mid) (D.view lay) y.slot y.sb
        → HasLaid (D.view mid) (D.view lay) y.slot y.sb
        → TearsOnly (D.view lay) (D.view end) (region_at x.sb.mem x.sb.region) 1
        → Passes (D.view lay) (D.view end) → LeavesContent (D.view lay) → LeavesContent (D.view end)
        → ((c : Image) → Images (D.view end) c → c (region_at x.sb.mem x.sb.region) ≢ open_flag)
        → ContentsStand (D.view end) y }
{}

/// So it is where a journal turns at the end, which is that of the old contents: it then is that of the new ones. The
/// turn may fail, but for the new contents to stand.
pub fn a_turn_ends_a_publication<D: Viewed>()
    ensures trail { (old mid lay end : D) (x y : Contents) (log : Log) (free : ℕ → Bool)
        → ContentsStand (D.view old) x → AreFree free x
        → TearsBlocks free (D.view old) (D.view mid) → IsPrepared (D.view mid) x y
        → LaysSuper (D.view mid) (D.view lay) y.slot y.sb
        → HasLaid (D.view mid) (D.view lay) y.slot y.sb → IsLogOf x log
        → TearsOnly (D.view lay) (D.view end) (region_at log.mem log.active) 1
        → Passes (D.view lay) (D.view end)
        → Trail ShowsTable (D.view end) (D.view old).moment (table_of (contents_state x) ∷ []) 0 }
    ensures stands { (mid lay end : D) (x y : Contents) (log : Log) → IsPrepared (D.view mid) x y
        → LaysSuper (D.view mid) (D.view lay) y.slot y.sb
        → HasLaid (D.view mid) (D.view lay) y.slot y.sb → IsLogOf x log
        → TearsOnly (D.view lay) (D.view end) (region_at log.mem log.active) 1
        → Passes (D.view lay) (D.view end) → LeavesContent (D.view lay) → LeavesContent (D.view end)
        → IsRegionShut (D.view end) log.mem log.active → ContentsStand (D.view end) y }
    ensures log { (x y : Contents) (log : Log) → Succeeds x y → IsLogOf x log
        → IsLogOf y (region_turned log) }
{}
