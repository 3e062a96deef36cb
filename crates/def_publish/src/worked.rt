//! What the definitions say of disks that are written out. Each is the contract of a function that does nothing.

ghost use Rattle.std.specs.Prelude.{◌≡◌, ℕ, [], ◌∷◌, nat_le, None};
ghost use Rattle.strat_journal.specs.Log.{empty_log};
ghost use Rattle.strat_model.specs.Table.{Table};
ghost use Rattle.def_recovery.specs.Disks.{formatted};
ghost use Rattle.def_publish.specs.Appending.{IsLogOf};
ghost use Rattle.def_publish.specs.Contents.{named_blocks};
ghost use Rattle.def_publish.specs.Next.{IsNextOf, MayBeNext, AreNewArrays, HasManifest, IsPromotion, arrays_made};
ghost use Rattle.def_publish.specs.Occupied.{IsSpaceOf, UsesMore};
ghost use Rattle.def_publish.specs.Publication.{Succeeds, IsPrepared, IsPromotedFrom};
ghost use Rattle.def_publish.specs.Standing.{ShowsTable, AreFree, ContentsStand};
ghost use Rattle.def_publish.specs.Worked.{resting, new_contents, chain_logged, chain_next, chain_again, chain_made, made_with, with_versions, with_extents, used_to, blocks_from, prepared_disk, published_disk, at_generation, free_but, miscounted};

/// A new store stands on a disk that was just formatted, with its journal.
pub fn new_contents_stand()
    ensures stands { ContentsStand (resting formatted) new_contents }
    ensures log { IsLogOf new_contents (empty_log 4 0) }
{}

/// A disk whose journal is full, and that has the array and the manifest of the same state without a
/// journal, is prepared for them: so no premise of a checkpoint is empty. A generation may be left out. A journal
/// without a change may be published too.
pub fn a_disk_is_prepared()
    ensures prepared { IsPrepared (resting prepared_disk) chain_logged chain_next }
    ensures promoted { IsPromotedFrom chain_logged chain_next }
    ensures generation { Succeeds chain_logged (at_generation 3 chain_next) }
    ensures again { Succeeds chain_next chain_again }
{}

/// The contents that are to take their place may be the next ones, with the level that was made and none taken; and so
/// may the same contents once more, where the journal has no change, with no level made and all of them kept. They
/// may not where a generation is left out, where the array has another number, where its versions do not ascend, where
/// an extent begins where the one before it ends, or where it has no block.
pub fn the_next_contents_are_computed()
    ensures ok { MayBeNext prepared_disk prepared_disk chain_logged chain_next chain_made [] [] }
    ensures again { MayBeNext published_disk published_disk chain_next chain_again None []
        chain_next.chained.manifest.levels }
    ensures promoted { IsPromotion prepared_disk chain_logged chain_next chain_made [] }
    ensures written { HasManifest prepared_disk chain_next }
    ensures generation { ¬ IsNextOf chain_logged (at_generation 3 chain_next) chain_made [] [] }
    ensures made { ¬ IsNextOf chain_logged chain_next None [] [] }
    ensures number { ¬ AreNewArrays 2 (arrays_made chain_made) }
    ensures tag { ¬ AreNewArrays 1 (arrays_made (made_with (with_versions (1 ∷ 3 ∷ 2 ∷ [])))) }
    ensures touching { ¬ AreNewArrays 1 (arrays_made (made_with (with_extents
        (blocks_from 7 1 ∷ blocks_from 8 1 ∷ [])))) }
    ensures bare { ¬ AreNewArrays 1 (arrays_made (made_with (with_extents
        (blocks_from 7 0 ∷ [])))) }
{}

/// The space has block 6 of the old manifest, then those of the array and of the next manifest too, and
/// in the end these alone. A space with a block less or with a block more is not that of these contents.
pub fn a_space_has_the_blocks_of_contents()
    ensures old { IsSpaceOf (used_to 7 []) chain_logged [] }
    ensures during { IsSpaceOf (used_to 9 []) chain_logged (blocks_from 7 2 ∷ []) }
    ensures next { IsSpaceOf (used_to 9 []) chain_next (blocks_from 6 1 ∷ []) }
    ensures after { IsSpaceOf (used_to 9 (blocks_from 6 1 ∷ [])) chain_next [] }
    ensures fewer { ¬ IsSpaceOf (used_to 8 (blocks_from 6 1 ∷ [])) chain_next [] }
    ensures more { ¬ IsSpaceOf (used_to 9 []) chain_next [] }
    ensures used { UsesMore (used_to 7 []) (blocks_from 7 2 ∷ []) (used_to 9 []) }
{}

/// The blocks of a manifest come before those of its arrays. Block 6 of the old manifest is free beside
/// the new contents alone, blocks 7 and 8 beside the old ones alone, block 5 of the journal beside none.
pub fn blocks_are_free_beside_contents()
    ensures old { named_blocks chain_logged ≡ 6 ∷ [] }
    ensures new { named_blocks chain_next ≡ 8 ∷ 7 ∷ [] }
    ensures before { AreFree (free_but 6 6) chain_logged }
    ensures after { AreFree (free_but 7 8) chain_next }
    ensures manifest { ¬ AreFree (free_but 7 8) chain_logged }
    ensures array { ¬ AreFree (free_but 6 8) chain_next }
    ensures chain { ¬ AreFree (free_but 6 7) chain_next }
    ensures journal { ¬ AreFree (λ b. nat_le 5 b) chain_logged }
{}

/// An image that reads as a state which is not sound shows no table.
pub fn unsound_states_show_no_table()
    ensures { (t : Table) → ¬ ShowsTable miscounted t }
{}
