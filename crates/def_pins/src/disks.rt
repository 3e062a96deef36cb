//! Manifests and disks at the bounds of what recovery takes. Each is the contract of a function that does
//! nothing.

#![tactic(auto, unfolding(strat_base::specs::Numbers::be, strat_base::specs::Numbers::number, def_crash::specs::Image::window, def_crash::specs::Image::over, def_bytes::specs::SuperBlock::slot_of, def_bytes::specs::SuperBlock::slot_in, def_bytes::specs::SuperBlock::zeros, def_bytes::specs::Manifest::all_pass))]

ghost use Rattle.std.specs.Prelude.{◌≡◌, [], ◌∷◌, Some, None, Ok, Err, true, false};
ghost use Rattle.strat_base.specs.Change.{Put, Clone, DropVersion};
ghost use Rattle.strat_base.specs.Samples.{says};
ghost use Rattle.def_crash.specs.Image.{patch};
ghost use Rattle.def_bytes.specs.SuperBlock.{spelled, fields, newest_in};
ghost use Rattle.def_recovery.specs.Bad.{fits_behind};
ghost use Rattle.def_recovery.specs.Disks.{formatted, old_formatted, new_super, old_super, new_head, chain_super, chain_manifest, published_by, last_dropped};
ghost use Rattle.def_recovery.specs.Opening.{belongs, accepted_in, recover_manifest, recover_journal, recover};
ghost use Rattle.def_pins.specs.Formats.{put_of, with_puts, with_parents, after_a_drop};
ghost use Rattle.def_pins.specs.Disks.{array_at, having, in_block_eight, led_by, after_two_changes, with_second_slot, in_two_blocks, of_format, of_first_format, after_a_change};

/// Two arrays may be the same in all but their numbers, blocks and versions, and share none of these.
pub fn arrays_share_no_number_block_or_version()
    ensures ok { belongs chain_super
        (in_block_eight (having (array_at 1 1 7 ∷ array_at 2 2 9 ∷ []))) ≡ true }
    ensures number { belongs chain_super
        (in_block_eight (having (array_at 1 1 7 ∷ array_at 1 2 9 ∷ []))) ≡ false }
    ensures block { belongs chain_super
        (in_block_eight (having (array_at 1 1 7 ∷ array_at 2 2 7 ∷ []))) ≡ false }
    ensures chain { belongs chain_super
        (in_block_eight (having (array_at 1 1 8 ∷ array_at 2 2 9 ∷ []))) ≡ false }
    ensures version { belongs chain_super
        (in_block_eight (having (array_at 1 1 7 ∷ array_at 2 1 9 ∷ []))) ≡ false }
{}

/// The first block after the journal may be used, and none before it.
pub fn blocks_follow_the_journal()
    ensures array { (belongs chain_super (in_block_eight (having (array_at 1 1 6 ∷ []))) ≡ true)
        × (belongs chain_super (in_block_eight (having (array_at 1 1 5 ∷ []))) ≡ false) }
    ensures chain { (belongs chain_super (record { manifest = having []; blocks = 6 ∷ [] }) ≡ true)
        × (belongs chain_super (record { manifest = having []; blocks = 5 ∷ [] }) ≡ false) }
{}

/// Of three entries two are leads at least, and they lie in three blocks at most.
pub fn arrays_are_filled()
    ensures ok { belongs chain_super (in_block_eight (led_by 2 3)) ≡ true }
    ensures leads { belongs chain_super (in_block_eight (led_by 1 3)) ≡ false }
    ensures blocks { belongs chain_super (in_block_eight (led_by 2 4)) ≡ false }
{}

/// Each bound on what a manifest counts, met exactly and passed by one: for two changes there are at most
/// three generations, 32,768 arrays, and 67,108,864 entries written and as many compacted.
pub fn manifests_belong_up_to_their_bounds()
    ensures generation { (belongs
        (record chain_super { generation = 3 }) (in_block_eight (after_two_changes 1 0))
        ≡ true)
        × (belongs (record chain_super { generation = 4 }) (in_block_eight (after_two_changes 1 0))
        ≡ false) }
    ensures next { (belongs chain_super (in_block_eight (after_two_changes 32769 0)) ≡ true)
        × (belongs chain_super (in_block_eight (after_two_changes 32770 0)) ≡ false) }
    ensures written { (belongs chain_super (in_block_eight (after_two_changes 1 67108864)) ≡ true)
        × (belongs chain_super (in_block_eight (after_two_changes 1 67108865)) ≡ false) }
    ensures compacted { (belongs chain_super
        (in_block_eight (record (after_two_changes 1 0) { compacted = 67108864 })) ≡ true)
        × (belongs chain_super
        (in_block_eight (record (after_two_changes 1 0) { compacted = 67108865 })) ≡ false) }
    ensures changes { (belongs
        (record chain_super { changes_max = 4 }) (in_block_eight chain_manifest) ≡ true)
        × (belongs (record chain_super { changes_max = 3 }) (in_block_eight chain_manifest)
        ≡ false) }
    ensures versions { (belongs
        (record chain_super { versions_max = 4 }) (in_block_eight chain_manifest) ≡ true)
        × (belongs (record chain_super { versions_max = 3 }) (in_block_eight chain_manifest)
        ≡ false) }
    ensures updates { (belongs chain_super
        (in_block_eight (record (led_by 2 3) { updates = 2 })) ≡ true)
        × (belongs chain_super (in_block_eight (record (led_by 2 3) { updates = 1 })) ≡ false) }
{}

/// A manifest with versions that were dropped belongs to its superblock as any other does.
pub fn manifests_with_drops_belong()
    ensures last { belongs chain_super (in_block_eight
        (record chain_manifest { marks = last_dropped })) ≡ true }
    ensures first { belongs chain_super (in_block_eight
        (record chain_manifest { marks = false ∷ true ∷ true ∷ true ∷ [] })) ≡ true }
{}

/// A mark that is set is read from a manifest, and the record of a drop from the journal, of a store of format 1 as well.
/// A drop that the table refuses is damage in the block of the flag before its record.
pub fn drops_are_read_from_disks()
    ensures mark { recover_manifest (published_by chain_super
        (record chain_manifest { marks = last_dropped })) chain_super
        ≡ Ok (record chain_manifest { marks = last_dropped }) }
    ensures journal { recover (patch old_formatted 8192
        (0xa7 ∷ 3 ∷ 0 ∷ 0 ∷ 0 ∷ 0 ∷ 0xa7 ∷ 4 ∷ 0 ∷ 0 ∷ 0 ∷ 1 ∷ 0 ∷ []))
        ≡ Ok (Some (record new_head { sb = old_super; journal = Clone 0 ∷ DropVersion 1 ∷ [] })) }
    ensures refused { recover (patch old_formatted 8192
        (0xa7 ∷ 3 ∷ 0 ∷ 0 ∷ 0 ∷ 0 ∷ 0xa7 ∷ 4 ∷ 0 ∷ 0 ∷ 0 ∷ 0 ∷ 0 ∷ [])) ≡ Err 2 }
{}

/// A superblock of either format is taken, beside one of the other format too. Of another format it is refused, in either
/// slot, and its block is named.
pub fn superblocks_of_both_formats_are_taken()
    ensures one { newest_in (patch formatted 4096 (0xa7 ∷ spelled (fields (of_format 1 1))))
        ≡ Ok (Some (1, of_format 1 1)) }
    ensures two { newest_in (patch old_formatted 4096 (0xa7 ∷ spelled (fields (of_format 2 1))))
        ≡ Ok (Some (1, of_format 2 1)) }
    ensures none { newest_in (patch formatted 4096 (0xa7 ∷ spelled (fields (of_format 0 1))))
        ≡ Err 1 }
    ensures other { newest_in (patch formatted 0 (0xa7 ∷ spelled (fields (of_format 3 0))))
        ≡ Err 0 }
    ensures recovery { recover (patch formatted 4096 (0xa7 ∷ spelled (fields (of_format 3 1))))
        ≡ Err 1 }
{}

/// Of two open superblocks with one generation the first slot's is the newest.
pub fn ties_of_superblocks_go_to_the_first_slot()
    ensures tie { newest_in (with_second_slot 1) ≡ Ok (Some (0, new_super)) }
    ensures newer { newest_in (with_second_slot 2)
        ≡ Ok (Some (1, record new_super { generation = 2; region = 1 })) }
{}

/// The block of the chosen slot is named where a field of it is out of range, also where the other slot is good. A slot
/// that is shut, or has another magic, is none.
pub fn the_chosen_slot_is_judged()
    ensures damaged { newest_in (patch (with_second_slot 2) 4123 (2 ∷ [])) ≡ Err 1 }
    ensures older { newest_in (patch (with_second_slot 1) 4123 (2 ∷ []))
        ≡ Ok (Some (0, new_super)) }
    ensures shut { newest_in (patch formatted 0 (0xa6 ∷ [])) ≡ Ok None }
    ensures magic { newest_in (patch formatted 8 (0x32 ∷ [])) ≡ Ok None }
{}

/// A record that the table refuses in its turn is blamed on the block of its own gate. So is a drop, and a change of what was
/// dropped.
pub fn refused_records_are_named()
    ensures ok { accepted_in 2 2 (None ∷ []) (false ∷ []) 0
        (record { change = Clone 0; block = 2 } ∷ record { change = Put 1 [] []; block = 3 } ∷ [])
        ≡ Ok (Clone 0 ∷ Put 1 [] [] ∷ []) }
    ensures unknown { accepted_in 2 2 (None ∷ []) (false ∷ []) 0
        (record { change = Put 1 [] []; block = 3 } ∷ record { change = Clone 0; block = 4 } ∷ [])
        ≡ Err 3 }
    ensures frozen { accepted_in 2 2 (None ∷ []) (false ∷ []) 0
        (record { change = Clone 0; block = 2 } ∷ record { change = Put 0 [] []; block = 3 } ∷ [])
        ≡ Err 3 }
    ensures changes { accepted_in 2 2 (None ∷ []) (false ∷ []) 1
        (record { change = Clone 0; block = 2 } ∷ record { change = Put 1 [] []; block = 3 } ∷ [])
        ≡ Err 3 }
    ensures versions { accepted_in 2 2 (None ∷ []) (false ∷ []) 0
        (record { change = Clone 0; block = 2 } ∷ record { change = Clone 1; block = 3 } ∷ [])
        ≡ Err 3 }
    ensures drop { accepted_in 9 9 (None ∷ []) (false ∷ []) 0
        (record { change = Clone 0; block = 2 } ∷ record { change = DropVersion 1; block = 3 }
        ∷ record { change = Put 0 [] []; block = 4 } ∷ [])
        ≡ Ok (Clone 0 ∷ DropVersion 1 ∷ Put 0 [] [] ∷ []) }
    ensures root { accepted_in 9 9 (None ∷ []) (false ∷ []) 0
        (record { change = Clone 0; block = 2 } ∷ record { change = DropVersion 0; block = 3 } ∷ [])
        ≡ Err 3 }
    ensures parent { accepted_in 9 9 (None ∷ []) (false ∷ []) 0
        (record { change = Clone 0; block = 2 } ∷ record { change = Clone 1; block = 3 }
        ∷ record { change = DropVersion 1; block = 4 } ∷ []) ≡ Err 4 }
    ensures dropped { accepted_in 9 9 (None ∷ []) (false ∷ []) 0
        (record { change = Clone 0; block = 2 } ∷ record { change = DropVersion 1; block = 3 }
        ∷ record { change = Put 1 [] []; block = 4 } ∷ []) ≡ Err 4 }
{}

/// Entries fit after earlier ones where they come after the last of them, their versions are there, and there
/// are no more leads than the descriptor says.
pub fn entries_fit_their_place()
    ensures ok { fits_behind 2 in_two_blocks (says 97 0 49 ∷ [])
        (says 98 0 49 ∷ says 99 1 49 ∷ []) ≡ true }
    ensures order { (fits_behind 2 in_two_blocks (says 98 0 49 ∷ []) (says 97 0 49 ∷ []) ≡ false)
        × (fits_behind 2 in_two_blocks (says 97 0 49 ∷ []) (says 97 0 49 ∷ []) ≡ false)
        × (fits_behind 2 in_two_blocks (says 97 1 49 ∷ []) (says 97 0 49 ∷ []) ≡ true)
        × (fits_behind 2 in_two_blocks (says 97 0 49 ∷ []) (says 97 1 49 ∷ []) ≡ false) }
    ensures last { (fits_behind 2 in_two_blocks (says 97 1 49 ∷ says 99 1 49 ∷ [])
        (says 98 1 49 ∷ []) ≡ false)
        × (fits_behind 2 in_two_blocks (says 97 1 49 ∷ says 99 1 49 ∷ []) (says 100 1 49 ∷ [])
        ≡ true) }
    ensures first { fits_behind 2 in_two_blocks [] (says 97 0 49 ∷ []) ≡ true }
    ensures version { (fits_behind 1 in_two_blocks [] (says 97 0 49 ∷ []) ≡ true)
        × (fits_behind 1 in_two_blocks [] (says 97 1 49 ∷ []) ≡ false) }
    ensures leads { fits_behind 2 in_two_blocks (says 97 0 49 ∷ [])
        (says 98 0 49 ∷ says 99 0 49 ∷ []) ≡ false }
{}

/// Where a manifest does not belong to its superblock, and a record of the journal is none, the manifest is blamed.
pub fn manifests_are_tested_before_journals()
    ensures { recover (patch (published_by (record chain_super { versions_max = 3 }) chain_manifest)
        16385 (0 ∷ [])) ≡ Err 8 }
{}

/// The manifest of a superblock is read in its format. One of the other format is damage, of whatever length.
pub fn manifests_are_read_in_the_format_of_their_superblock()
    ensures one { recover_manifest (published_by of_first_format (after_a_change 0))
        of_first_format ≡ Ok (after_a_change 0) }
    ensures two { recover_manifest (published_by (of_format 2 1) (after_a_change 258))
        (of_format 2 1) ≡ Ok (after_a_change 258) }
    ensures newer { (recover_manifest (published_by (of_format 2 1) (after_a_change 0))
        (of_format 1 1) ≡ Err 8)
        × (recover_manifest (published_by (of_format 2 1) (after_a_change 0)) of_first_format
        ≡ Err 8) }
    ensures older { (recover_manifest (published_by of_first_format (after_a_change 0))
        (record of_first_format { format = 2 }) ≡ Err 8)
        × (recover_manifest (published_by of_first_format (after_a_change 0)) (of_format 2 1)
        ≡ Err 8) }
{}

/// The records of a journal find the versions as the manifest has them: a version is frozen by a child there, and not by one
/// that was dropped.
pub fn journals_begin_with_the_marks_of_the_manifest()
    ensures dropped { recover_journal (with_puts (97 ∷ []) []) new_super (after_a_drop 0)
        ≡ Ok (put_of 97 ∷ []) }
    ensures living { recover_journal (with_puts (97 ∷ []) []) new_super (with_parents (0 ∷ []))
        ≡ Err 2 }
{}
