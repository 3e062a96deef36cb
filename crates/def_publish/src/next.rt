//! Laws of the next contents of a store. Each is the contract of a function that does nothing.

ghost use Rattle.std.specs.Prelude.{◌≡◌, ◌≤◌, ◌<◌, ◌^◌, ℕ, List, length, Option, Some, IsTrue};
ghost use Rattle.strat_base.specs.Tree.{Parents};
ghost use Rattle.strat_base.specs.declared.descriptors.ArrayDesc.{ArrayDesc as TheDesc};
ghost use Rattle.strat_base.specs.declared.descriptors.LevelDesc.{LevelDesc};
ghost use Rattle.strat_base.specs.declared.descriptors.Extent.{Extent};
ghost use Rattle.def_crash.specs.Image.{Image};
ghost use Rattle.def_crash.specs.Moments.{OnlyReads, IsDurable};
ghost use Rattle.strat_extent.specs.Blocks.{SpaceView};
ghost use Rattle.def_bytes.specs.Arrays.{all_some};
ghost use Rattle.def_recovery.specs.Opened.{level_on};
ghost use Rattle.def_state.specs.Sound.{IsSound};
ghost use Rattle.def_bytes.specs.Layout.{shortest_manifest};
ghost use Rattle.def_bytes.specs.Manifest.{SpellsManifest, manifest_bytes};
ghost use Rattle.def_split.specs.Plan.{Plan, IsSplit};
ghost use Rattle.def_promote.specs.Promoted.{SaysTheSame};
ghost use Rattle.def_recovery.specs.Opening.{belongs, has_own_blocks};
ghost use Rattle.def_publish.specs.Contents.{Contents, contents_state};
ghost use Rattle.def_publish.specs.Next.{IsNextOf, IsSoundNext, MayBeNext, AreNewArrays, AreArraysOf, HasManifest, IsPromotion, arrays_made};
ghost use Rattle.def_publish.specs.Occupied.{IsSpaceOf};
ghost use Rattle.def_publish.specs.Publication.{Succeeds, IsPrepared};
ghost use Rattle.def_publish.specs.Standing.{LiesIn, ReadsAs, LeavesContent, ContentsStand};

use def_crash::laws::Viewed;

/// The arrays of the parts of a plan are new arrays: their numbers follow one another, and their tags ascend, as do
/// the first versions of these.
pub fn the_arrays_of_a_plan_are_new()
    ensures ok { (parents : Parents) (own live : ℕ → ℕ) (plan : Plan) (first : ℕ)
        (arrays : List TheDesc) → IsSplit parents own live plan → AreArraysOf plan first arrays
        → AreNewArrays first arrays }
{}

/// The manifest of contents that may follow others has a spelling.
pub fn the_next_manifest_has_a_spelling()
    ensures ok { (f g : Image) (old new : Contents) (made : Option LevelDesc)
        (taken kept : List LevelDesc) → MayBeNext f g old new made taken kept
        → SpellsManifest new.sb.format (manifest_bytes new.sb.format new.chained.manifest)
        new.chained.manifest }
{}

/// It has at least the bytes of a new store's, and few enough for its chain.
pub fn the_next_manifest_is_short()
    ensures len { (f g : Image) (old new : Contents) (made : Option LevelDesc)
        (taken kept : List LevelDesc) → MayBeNext f g old new made taken kept
        → (shortest_manifest new.sb.format
        ≤ length (manifest_bytes new.sb.format new.chained.manifest))
        × (length (manifest_bytes new.sb.format new.chained.manifest) < 2 ^ 31) }
{}

/// It belongs to its superblock, where its blocks are its own.
pub fn the_next_manifest_belongs()
    ensures ok { (f g : Image) (old new : Contents) (made : Option LevelDesc)
        (taken kept : List LevelDesc) → MayBeNext f g old new made taken kept
        → IsTrue (has_own_blocks new.sb new.chained.blocks new.chained.manifest)
        → IsTrue (belongs new.sb new.chained) }
{}

/// What a promotion leaves follows soundly, and says the same.
pub fn promoted_contents_follow()
    ensures ok { (f g : Image) (old new : Contents) (made : Option LevelDesc)
        (taken kept : List LevelDesc) → ReadsAs f old
        → IsSound (contents_state old) → IsNextOf old new made taken kept
        → AreNewArrays old.chained.manifest.next_array (arrays_made made)
        → IsPromotion g old new made taken
        → IsSoundNext f g old new made taken kept
        × SaysTheSame (contents_state old) (contents_state new) }
{}

/// Contents that follow soundly may be the next if the journal has a change. Of two checkpoints in a row the second needs
/// none, if two changes are in front of both.
pub fn contents_that_follow_a_change_may_be_next()
    ensures ok { (f g : Image) (old new : Contents) (made : Option LevelDesc)
        (taken kept : List LevelDesc) → IsSoundNext f g old new made taken kept
        → 1 ≤ length old.journal → MayBeNext f g old new made taken kept }
    ensures twice { (f g c d : Image) (old mid new : Contents) (made more : Option LevelDesc)
        (taken kept from rest : List LevelDesc) → IsSoundNext f g old mid made taken kept
        → IsSoundNext c d mid new more from rest
        → 2 ≤ length old.journal → MayBeNext c d mid new more from rest }
{}

/// Contents that may be the next may take the place of the others where an image has their manifest, their blocks are just
/// used and their state says the same; and they lie in that image where it has their levels.
pub fn the_next_contents_succeed()
    ensures ok { (f g c : Image) (old new : Contents) (made : Option LevelDesc)
        (taken kept : List LevelDesc) (s : SpaceView) (others : List Extent)
        → MayBeNext f g old new made taken kept → IsSpaceOf s new others → HasManifest c new
        → SaysTheSame (contents_state old) (contents_state new) → Succeeds old new }
    ensures found { (f g c : Image) (old new : Contents) (made : Option LevelDesc)
        (taken kept : List LevelDesc) (s : SpaceView) (others : List Extent)
        → MayBeNext f g old new made taken kept → IsSpaceOf s new others → HasManifest c new
        → all_some (level_on c) new.chained.manifest.levels ≡ Some new.levels → LiesIn c new }
{}

/// Once they were written beside contents that stand, a sync prepares them: then their superblock may be laid.
pub fn a_sync_prepares_what_was_computed<D: Viewed>()
    ensures ok { (v w : D) (old new : Contents) (made : Option LevelDesc)
        (taken kept : List LevelDesc) (s : SpaceView) (others : List Extent)
        (stands : ContentsStand (D.view v) old) (f : Image)
        → MayBeNext f stands.content old new made taken kept
        → SaysTheSame (contents_state old) (contents_state new) → IsSpaceOf s new others
        → HasManifest stands.content new → OnlyReads (D.view v) (D.view w)
        → IsDurable (D.view w) → LeavesContent (D.view w) → IsPrepared (D.view w) old new }
{}
