//! Laws of the blocks that contents use in a space. Each is the contract of a function that does nothing.

ghost use Rattle.std.specs.Prelude.{◌≡◌, ℕ, ◌+◌, false, [], ◌++◌, List, Option, IsTrue};
ghost use Rattle.strat_base.specs.declared.descriptors.Extent.{Extent};
ghost use Rattle.strat_base.specs.declared.descriptors.LevelDesc.{LevelDesc};
ghost use Rattle.strat_extent.specs.Blocks.{SpaceView, times_in, is_used, is_free, uses};
ghost use Rattle.strat_extent.specs.Change.{IsMarked, CanGive};
ghost use Rattle.def_bytes.specs.Arrays.{blocks_of};
ghost use Rattle.def_bytes.specs.Layout.{first_free};
ghost use Rattle.def_recovery.specs.Head.{descriptors};
ghost use Rattle.def_recovery.specs.Opening.{has_own_blocks};
ghost use Rattle.def_publish.specs.Contents.{Contents};
ghost use Rattle.def_publish.specs.Next.{IsNextOf, arrays_made};
ghost use Rattle.def_publish.specs.Occupied.{IsSpaceOf, UsesMore, extents_of, arrays_in};
ghost use Rattle.def_publish.specs.Standing.{AreFree};

/// Blocks that become used stand beside those of contents, also where they join others, and may be given back.
pub fn blocks_stand_beside_those_of_contents()
    ensures ok { (s t : SpaceView) (x : Contents) (others xs : List Extent)
        → IsSpaceOf s x others → UsesMore s xs t → IsSpaceOf t x (xs ++ others) }
    ensures found { (s t : SpaceView) (x : Contents) (others xs ys : List Extent)
        → IsSpaceOf s x (xs ++ others) → t.first ≡ s.first
        → ((b : ℕ) → uses t b + times_in xs b ≡ uses s b + times_in ys b)
        → IsSpaceOf t x (ys ++ others) }
    ensures end { (s t : SpaceView) (x : Contents) (others xs : List Extent)
        → IsSpaceOf s x (xs ++ others) → UsesMore t xs s → IsSpaceOf t x others }
    ensures room { (s : SpaceView) (x : Contents) (others xs : List Extent)
        → IsSpaceOf s x (xs ++ others) → CanGive s xs }
    ensures same { (s t : SpaceView) (xs : List Extent) → IsMarked s xs t → UsesMore s xs t }
{}

/// A space of which nothing is used has the blocks of contents once those of their chain and of all arrays are marked.
pub fn a_marked_space_is_that_of_contents()
    ensures ok { (s t : SpaceView) (x : Contents) (chain : List Extent)
        → s.first ≡ first_free x.sb.mem → ((b : ℕ) → is_used s b ≡ false)
        → blocks_of chain ≡ x.chained.blocks
        → UsesMore s (chain ++ extents_of (descriptors x.chained.manifest)) t → IsSpaceOf t x [] }
    ensures found { (s t u : SpaceView) (xs ys : List Extent) → UsesMore s xs t → UsesMore t ys u
        → UsesMore s (xs ++ ys) u }
{}

/// What is free in the space of contents is free beside them, so it may be written while they stand.
pub fn free_blocks_are_free_beside_contents()
    ensures ok { (s : SpaceView) (x : Contents) (others : List Extent) → IsSpaceOf s x others
        → AreFree (is_free s) x }
{}

/// Where the blocks of contents just are used, they are their own: each stands once, and behind the journal.
pub fn used_blocks_are_their_own()
    ensures ok { (s : SpaceView) (x : Contents) (others : List Extent) → IsSpaceOf s x others
        → IsTrue (has_own_blocks x.sb x.chained.blocks x.chained.manifest) }
{}

/// Where the blocks of the next manifest and of the arrays that were made are used beside those of the old contents,
/// those of the old manifest and of the arrays that were taken are used beside those of the next ones. Once these
/// are given back just those of the next contents are used.
pub fn a_publication_gives_the_old_blocks_back()
    ensures same { (s : SpaceView) (old new : Contents) (made : Option LevelDesc)
        (taken kept : List LevelDesc) (chain gone others : List Extent)
        → IsNextOf old new made taken kept
        → blocks_of chain ≡ new.chained.blocks → blocks_of gone ≡ old.chained.blocks
        → IsSpaceOf s old (chain ++ (extents_of (arrays_made made) ++ others))
        → IsSpaceOf s new (gone ++ (extents_of (arrays_in taken) ++ others)) }
    ensures ok { (s t u : SpaceView) (old new : Contents) (made : Option LevelDesc)
        (taken kept : List LevelDesc) (chain gone : List Extent)
        → IsNextOf old new made taken kept
        → blocks_of chain ≡ new.chained.blocks → blocks_of gone ≡ old.chained.blocks
        → IsSpaceOf s old [] → UsesMore s (chain ++ extents_of (arrays_made made)) t
        → UsesMore u (gone ++ extents_of (arrays_in taken)) t → IsSpaceOf u new [] }
{}
