//! Laws of arrays that are being written. Each is the contract of a function that does nothing.

ghost use Rattle.std.specs.List.{list_all};
ghost use Rattle.std.specs.Prelude.{◌≡◌, ℕ, true, false, None, List, [], ◌∷◌, ◌++◌, IsTrue};
ghost use Rattle.strat_array.specs.Progress.{ArrayProgress};
ghost use Rattle.strat_array.specs.Pushed.{AreMaximal, IsEndOf, IsPushed, with_entry};
ghost use Rattle.strat_array.specs.Taking.{AreUsed, TakesBlock};
ghost use Rattle.strat_array.specs.Within.{AreWithin};
ghost use Rattle.strat_base.specs.declared.descriptors.Extent.{Extent};
ghost use Rattle.strat_base.specs.Entries.{Entry as TheEntry, is_ascending};
ghost use Rattle.def_crash.specs.Blocks.{AgreeOn, KeepsTaken};
ghost use Rattle.def_crash.specs.Image.{Image};
ghost use Rattle.strat_extent.specs.Blocks.{SpaceView, is_used, is_free};
ghost use Rattle.strat_extent.specs.Change.{CanGive};
ghost use Rattle.def_bytes.specs.Arrays.{blocks_of, entries_on};
ghost use Rattle.def_bytes.specs.Manifest.{is_lawful_extent, are_apart};

/// Entries stay pushed while the content stays in the blocks that were written, and a new writer has none.
pub fn entries_stay_pushed()
    ensures ok { (f g : Image) (w : ArrayProgress) (es : List TheEntry)
        → AgreeOn (blocks_of w.extents) f g → IsPushed f w es → IsPushed g w es }
    ensures none { (f : Image) (id : ℕ)
        → IsPushed f (record {
          id = id;
          count = 0;
          pending = [];
          extents = [];
          filter = None;
        }) [] }
    ensures kept { (f : Image) (w : ArrayProgress) (es : List TheEntry) → IsPushed f w es
        → IsTrue (is_ascending es) → IsTrue (is_ascending w.pending) }
{}

/// What is in no block are the last of the entries pushed, also where no disk tells of the others: so they ascend with
/// the next entry where all do.
pub fn pending_entries_are_the_last()
    ensures ok { (all pending : List TheEntry) (e : TheEntry) → IsEndOf pending all
        → IsEndOf (with_entry pending e) (all ++ e ∷ []) }
    ensures none { (all : List TheEntry) → IsEndOf [] all }
    ensures found { (f : Image) (w : ArrayProgress) (es : List TheEntry) → IsPushed f w es
        → IsEndOf w.pending es }
    ensures kept { (all pending : List TheEntry) (e : TheEntry) → IsEndOf pending all
        → IsTrue (is_ascending (all ++ e ∷ [])) → IsTrue (is_ascending (pending ++ e ∷ [])) }
{}

/// The blocks of a writer are used once they are taken. A block that is used stays so while another is taken, and one
/// that may not be taken stays so too.
pub fn taken_blocks_are_used()
    ensures ok { (s t : SpaceView) (old new : List Extent) → TakesBlock s t old new
        → AreUsed s (blocks_of old) → AreUsed t (blocks_of new) }
    ensures same { (s t : SpaceView) (old new : List Extent) → TakesBlock s t old new → (b : ℕ)
        → is_used s b ≡ true → is_used t b ≡ true }
    ensures none { (s t : SpaceView) (old new : List Extent) → TakesBlock s t old new → (b : ℕ)
        → is_free s b ≡ false → is_free t b ≡ false }
{}

/// The blocks of all writers may be given back together: they are used, and none of them stands twice. This holds of
/// no blocks, and stays while one of the writers takes a block.
pub fn taken_blocks_may_be_given()
    ensures ok { (s t : SpaceView) (front old new back : List Extent) → TakesBlock s t old new
        → CanGive s (front ++ old ++ back) → CanGive t (front ++ new ++ back) }
    ensures none { (s : SpaceView) → CanGive s [] }
    ensures found { (s : SpaceView) (front own back : List Extent)
        → CanGive s (front ++ own ++ back) → CanGive s own }
    ensures same { (s : SpaceView) (xs : List Extent) → CanGive s xs → AreUsed s (blocks_of xs) }
{}

/// What changes free blocks alone leaves those that are used as they are, and so the entries in them.
pub fn used_blocks_keep_their_bytes()
    ensures ok { (s : SpaceView) (blocks : List ℕ) (f g : Image) → AreUsed s blocks
        → KeepsTaken (is_free s) f g → AgreeOn blocks f g }
    ensures same { (blocks : List ℕ) (f g : Image) → AgreeOn blocks f g
        → entries_on g blocks ≡ entries_on f blocks }
{}

/// The extents of an array that was written have a spelling in a manifest: none is empty, each ends at a block number,
/// and none begins where the one before it ends.
pub fn written_extents_have_a_spelling()
    ensures ok { (xs : List Extent) → AreMaximal xs → AreWithin xs
        → IsTrue (list_all is_lawful_extent xs) }
    ensures same { (xs : List Extent) → AreMaximal xs → IsTrue (are_apart xs) }
{}
