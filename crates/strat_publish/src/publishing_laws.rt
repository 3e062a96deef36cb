//! Laws of a checkpoint of a store. Each is the contract of a function that does nothing.

ghost use Rattle.std.specs.Prelude.{◌≡◌, ◌≤◌, ℕ, List, length, Option, IsTrue};
ghost use Rattle.strat_base.specs.declared.descriptors.Extent.{Extent};
ghost use Rattle.strat_base.specs.declared.descriptors.LevelDesc.{LevelDesc};
ghost use Rattle.strat_extent.specs.Blocks.{SpaceView};
ghost use Rattle.def_bytes.specs.Arrays.{blocks_of};
ghost use Rattle.def_bytes.specs.Manifest.{is_lawful_manifest};
ghost use Rattle.strat_journal.specs.Log.{Log};
ghost use Rattle.def_publish.specs.Appending.{IsLogOf};
ghost use Rattle.def_publish.specs.Contents.{Contents, contents_head, contents_state};
ghost use Rattle.def_publish.specs.Next.{IsNextOf};
ghost use Rattle.def_state.specs.Level.{Level};
ghost use Rattle.def_state.specs.Sound.{IsSound};
ghost use Rattle.strat_memory.specs.Filters.{LevelFilters};
ghost use Rattle.strat_memory.specs.Held.{Held, IsConsistent};
ghost use Rattle.strat_publish.specs.Promoting.{MayPromote, StandsMade};
ghost use Rattle.strat_memory.specs.Memory.{Memory, IsMemoryOf};
ghost use Rattle.strat_publish.specs.Counting.{CountsWritten, manifest_with_array};
ghost use Rattle.strat_publish.specs.Publishing.{IsComputed, IsWrittenBeside, MayCompute, contents_after, descs_to, descs_behind};
ghost use Rattle.def_bytes.specs.Layout.{newest_format};

use def_crash::laws::Viewed;

/// What a store that is whole holds may be promoted, whatever its disk.
pub fn a_whole_store_may_promote()
    ensures ok { (s : Held) → IsConsistent s
        → MayPromote s.memory s.levels s.chained.manifest.next_array }
{}

/// Where such a store stands on its disk, its journal fills its region, and a level was made of that beside it, its next
/// contents may be computed, in the space of the level. Of the extents of its manifest's chain only the blocks are known.
pub fn a_store_that_stands_may_compute<D: Viewed>()
    ensures ok { (d : D) (s : Held) (x : Contents) (chain : List Extent) (space : SpaceView)
        (target : ℕ) (made : Option LevelDesc) (filters : LevelFilters) → IsConsistent s
        → (m : StandsMade (D.view d) s x space target made filters) → s.sb.mem ≤ length s.log.list
        → blocks_of chain ≡ s.chained.blocks
        → MayCompute (D.view d) space s.memory s.log x target made filters m.beside.others }
{}

/// The contents whose manifest `next_manifest` makes follow those whose manifest and memory it was made of: they take the
/// place of the levels down to the target, keep the others, and have the changes behind a full region as their journal.
pub fn the_next_manifest_makes_the_next_contents()
    ensures ok { (old : Contents) (m : Memory) (target : ℕ) (made : Option LevelDesc)
        (levels : List Level) (first size : ℕ) (blocks : List ℕ) → IsMemoryOf (contents_head old) m
        → IsSound (contents_state old)
        → IsTrue (is_lawful_manifest newest_format old.chained.manifest)
        → IsNextOf old (contents_after old m target made levels first size blocks) made
        (descs_to target old.chained.manifest.levels)
        (descs_behind target old.chained.manifest.levels) }
{}

/// Once a level was made of contents that stand and the next manifest was written, in free blocks, the next contents are
/// computed: `lay_next` may make them those of the disk.
pub fn what_was_written_beside_is_computed<D: Viewed>()
    ensures ok { (w u : D) (t r : SpaceView) (old new : Contents) (target : ℕ)
        (made : Option LevelDesc) (besides others : List Extent) (log : Log)
        → IsWrittenBeside (D.view w) (D.view u) t r old new target made besides others
        → IsTrue (is_lawful_manifest newest_format old.chained.manifest) → IsLogOf old log
        → IsComputed (D.view u) new.slot new.sb log old new }
{}

/// Eight entries are counted behind the four of the checkpoint before; neither one less nor those of an array that has the
/// number of one before it.
pub fn entries_of_new_arrays_are_counted()
    ensures ok { CountsWritten (manifest_with_array 1 4 4) (manifest_with_array 2 8 12) }
    ensures none { ¬ CountsWritten (manifest_with_array 1 4 4) (manifest_with_array 2 8 11) }
    ensures same { ¬ CountsWritten (manifest_with_array 1 4 4) (manifest_with_array 1 8 12) }
{}
