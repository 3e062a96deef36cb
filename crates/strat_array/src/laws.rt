//! Laws of arrays. Each is the contract of a function that does nothing.

ghost use Rattle.std.specs.List.{list_all};
ghost use Rattle.std.specs.Prelude.{◌≡◌, ◌≤◌, ℕ, List, length, Option, Some, None, Contains, slice_get, IsTrue};
ghost use Rattle.strat_base.specs.Entries.{Entry};
ghost use Rattle.strat_base.specs.declared.descriptors.Extent.{Extent};
ghost use Rattle.def_crash.specs.Image.{Image};
ghost use Rattle.def_bytes.specs.Arrays.{block_on, blocks_of, entries_on};
ghost use Rattle.def_bytes.specs.Manifest.{is_lawful_extent};
ghost use Rattle.strat_array.specs.Kept.{Blocks, Kept, ArrayStands};
ghost use Rattle.strat_array.specs.Left.{all_in};
ghost use Rattle.strat_array.specs.Within.{AreWithin};

/// An array stands for those who read it where its blocks hold entries on a disk that exposes its content, each of
/// its blocks in the cache is as the disk has it, and the scratch holds none of it.
pub fn arrays_stand_where_their_blocks_do()
    ensures { (content : Option Image) (f : Image) (array : ℕ) (blocks : List ℕ) (c : Blocks)
        (entries : List Entry) → content ≡ Some f → entries_on f blocks ≡ Some entries
        → ((index block : ℕ) (x : List Entry) → Contains c.entries ((array, index), x)
        → slice_get blocks index ≡ Some block → block_on f block ≡ Some x)
        → (lists : List (List Entry)) × ArrayStands content array blocks c None lists
        × (all_in lists ≡ entries) }
{}

/// The extents of a manifest's array may be read, where they have no more blocks than there are numbers of blocks.
pub fn lawful_extents_may_be_read()
    ensures { (extents : List Extent) → IsTrue (list_all is_lawful_extent extents)
        → length (blocks_of extents) ≤ 4294967295 → AreWithin extents }
{}
