//! Values at the bounds of the formats: at each bound one that passes, and one past it that doesn't. Each is
//! the contract of a function that does nothing.

#![tactic(auto, unfolding(strat_base::specs::Numbers::be, strat_base::specs::Numbers::number, strat_base::specs::Change::change_in, def_crash::specs::Image::window, def_crash::specs::Image::over, def_bytes::specs::Block::block_bytes, def_bytes::specs::Chained::chain_from, def_bytes::specs::Manifest::all_pass, def_bytes::specs::Manifest::manifest_bytes, def_bytes::specs::Manifest::manifest_in, def_bytes::specs::Manifest::read_manifest, def_bytes::specs::Manifest::read_only, def_bytes::specs::Manifest::read_mark, def_bytes::specs::Manifest::read_level, def_bytes::specs::Manifest::read_array, def_bytes::specs::Manifest::read_extent, def_bytes::specs::Manifest::read_items, def_bytes::specs::Manifest::read_number, def_bytes::specs::Records::records, def_bytes::specs::SuperBlock::slot_of, def_bytes::specs::SuperBlock::zeros))]

ghost use Rattle.std.specs.Prelude.{◌≡◌, [], ◌∷◌, ◌++◌, map, replicate, Some, None, Ok, Err, true, false, take};
ghost use Rattle.strat_base.specs.Samples.{says, gone};
ghost use Rattle.def_bytes.specs.Block.{fits_block, block_bytes};
ghost use Rattle.def_bytes.specs.Manifest.{is_lawful_extent, is_lawful_array, is_lawful_level, is_lawful_manifest, has_fields, manifest_bytes, manifest_in, new_manifest};
ghost use Rattle.def_pins.specs.Formats.{four_entries, from_block, two_leads, in_extents, for_versions, odd_level, with_arrays, second_extent_at, without_levels, with_parents, after_a_drop, after_a_drop_bytes, two_arrays, two_arrays_bytes, least_super, greatest_super, of_generation, put_of, with_puts, with_gate, bytes_from, chain_links};
ghost use Rattle.def_bytes.specs.Chain.{chain_length};
ghost use Rattle.def_bytes.specs.Chained.{may_follow, chain_from, manifest_filled, manifest_at};
ghost use Rattle.def_bytes.specs.Layout.{region_size};
ghost use Rattle.def_bytes.specs.Records.{records_bytes, records, journal_of, journal_in_two};
ghost use Rattle.def_bytes.specs.SuperBlock.{in_range, newer, slot_of, body};
ghost use Rattle.def_recovery.specs.Disks.{new_super};

/// The block of `a` with the value `1` at version 0, and of `b` gone from version 258 on.
pub fn bytes_of_a_block_of_two()
    ensures { block_bytes (says 0x61 0 0x31 ∷ gone 0x62 258 ∷ [])
        ≡ (0 ∷ 2 ∷ 0 ∷ 6 ∷ 0 ∷ 16 ∷ 1 ∷ 0x61 ∷ 0 ∷ 0 ∷ 0 ∷ 0 ∷ 1 ∷ 0 ∷ 1 ∷ 0x31
        ∷ 1 ∷ 0x62 ∷ 0 ∷ 0 ∷ 1 ∷ 2 ∷ 0 ∷ []) ++ replicate 4073 0 }
{}

/// Four entries may fill a block to its last byte. With one byte more they are no block.
pub fn blocks_may_be_full()
    ensures most { fits_block (four_entries 978) ≡ true }
    ensures more { fits_block (four_entries 979) ≡ false }
{}

/// A block has an entry. Its entries ascend, and none stands twice.
pub fn blocks_have_entries_in_order()
    ensures none { fits_block [] ≡ false }
    ensures order { (fits_block (says 97 0 49 ∷ says 98 0 49 ∷ []) ≡ true)
        × (fits_block (says 98 0 49 ∷ says 97 0 49 ∷ []) ≡ false)
        × (fits_block (says 97 1 49 ∷ says 97 0 49 ∷ []) ≡ true)
        × (fits_block (says 97 0 49 ∷ says 97 1 49 ∷ []) ≡ false) }
    ensures twice { fits_block (says 97 0 49 ∷ says 97 0 50 ∷ []) ≡ false }
{}

/// The bytes of a region for the fewest and for the most changes.
pub fn regions_have_these_sizes()
    ensures { (region_size 4 ≡ 8192) × (region_size 4096 ≡ 5279744) }
{}

/// A block of a chain holds 4,092 bytes.
pub fn chains_are_as_long_as_they_need()
    ensures one { (chain_length 1 ≡ 1) × (chain_length 4092 ≡ 1) }
    ensures two { (chain_length 4093 ≡ 2) × (chain_length 8184 ≡ 2) }
    ensures three { chain_length 8185 ≡ 3 }
{}

/// A link names a block from 1 to 4,294,967,294 that is not in the chain already.
pub fn links_name_further_blocks()
    ensures least { (may_follow [] 0 ≡ false) × (may_follow [] 1 ≡ true) }
    ensures most { (may_follow [] 4294967294 ≡ true) × (may_follow [] 4294967295 ≡ false) }
    ensures again { (may_follow (7 ∷ 8 ∷ []) 8 ≡ false) × (may_follow (7 ∷ 8 ∷ []) 9 ≡ true) }
{}

/// A chain of two blocks is read. One that ends early, goes on after its last block or comes back to a block is
/// blamed on the block with the wrong link.
pub fn wrong_links_are_named()
    ensures ok { chain_from (chain_links 7 0) [] 6 1 ≡ Ok (6 ∷ 7 ∷ []) }
    ensures early { chain_from (chain_links 0 0) [] 6 1 ≡ Err 6 }
    ensures late { chain_from (chain_links 7 8) [] 6 1 ≡ Err 7 }
    ensures itself { chain_from (chain_links 6 0) [] 6 1 ≡ Err 6 }
    ensures back { chain_from (chain_links 7 6) [] 6 2 ≡ Err 7 }
{}

/// The manifest of one level with two arrays, as it is written and read.
pub fn bytes_of_two_arrays()
    ensures written { manifest_bytes 1 two_arrays ≡ two_arrays_bytes }
    ensures read { manifest_in 1 two_arrays_bytes ≡ Some two_arrays }
{}

/// A manifest with extents that touch is not read, though one with the same extents apart is.
pub fn touching_extents_are_not_read()
    ensures apart { manifest_in 1 (manifest_bytes 1 (second_extent_at 9))
        ≡ Some (second_extent_at 9) }
    ensures touching { manifest_in 1 (manifest_bytes 1 (second_extent_at 8)) ≡ None }
{}

/// Extents have a block each and end at a block number. No extent goes on where the one before it ends.
pub fn extents_do_not_touch()
    ensures last { is_lawful_extent (from_block 4294967294 1) ≡ true }
    ensures past { is_lawful_extent (from_block 4294967294 2) ≡ false }
    ensures none { is_lawful_extent (from_block 7 0) ≡ false }
    ensures apart { is_lawful_manifest 1 (second_extent_at 9) ≡ true }
    ensures touching { is_lawful_manifest 1 (second_extent_at 8) ≡ false }
{}

/// The bounds of a descriptor: its number, its entries, its leads and least live ones, its extents, its tag.
pub fn descriptors_are_lawful_up_to_their_bounds()
    ensures ok { is_lawful_array 2 two_leads ≡ true }
    ensures id { (is_lawful_array 2 (record two_leads { id = 0 }) ≡ false)
        × (is_lawful_array 1 two_leads ≡ false) }
    ensures entries { (is_lawful_array 2 (record two_leads { entries = 4294967295 }) ≡ true)
        × (is_lawful_array 2 (record two_leads { entries = 4294967296 }) ≡ false) }
    ensures none { is_lawful_array 2
        (record two_leads { entries = 0; leads = 0; least = 0 }) ≡ false }
    ensures leads { is_lawful_array 2 (record two_leads { leads = 3 }) ≡ false }
    ensures least { is_lawful_array 2 (record two_leads { least = 3 }) ≡ false }
    ensures extents { is_lawful_array 2 (in_extents []) ≡ false }
    ensures empty { is_lawful_array 2 (in_extents (from_block 7 0 ∷ [])) ≡ false }
    ensures versions { (is_lawful_array 2 (for_versions (0 ∷ 4294967295 ∷ [])) ≡ true)
        × (is_lawful_array 2 (for_versions (0 ∷ 4294967296 ∷ [])) ≡ false)
        × (is_lawful_array 2 (for_versions []) ≡ false) }
    ensures rising { (is_lawful_array 2 (for_versions (1 ∷ 1 ∷ [])) ≡ false)
        × (is_lawful_array 2 (for_versions (1 ∷ 0 ∷ [])) ≡ false) }
{}

/// The bounds of a level: numbers from 1 to 22, horizons from 1 to the number of versions, arrays by the
/// first version of their tags.
pub fn levels_are_lawful_up_to_their_bounds()
    ensures least { is_lawful_level 3 2 (odd_level 1 1 (two_leads ∷ [])) ≡ true }
    ensures most { is_lawful_level 3 2 (odd_level 22 3 (two_leads ∷ [])) ≡ true }
    ensures number { (is_lawful_level 3 2 (odd_level 0 3 (two_leads ∷ [])) ≡ false)
        × (is_lawful_level 3 2 (odd_level 23 3 (two_leads ∷ [])) ≡ false) }
    ensures horizon { (is_lawful_level 3 2 (odd_level 1 0 (two_leads ∷ [])) ≡ false)
        × (is_lawful_level 3 2 (odd_level 1 4 (two_leads ∷ [])) ≡ false) }
    ensures arrays { (is_lawful_level 3 2 (odd_level 1 3 []) ≡ false)
        × (is_lawful_level 3 1 (odd_level 1 3 (two_leads ∷ [])) ≡ false) }
    ensures rising { (is_lawful_level 3 2
        (odd_level 1 3 (two_leads ∷ for_versions (1 ∷ []) ∷ [])) ≡ true)
        × (is_lawful_level 3 2 (odd_level 1 3 (two_leads ∷ for_versions (0 ∷ []) ∷ [])) ≡ false) }
{}

/// The bounds of a manifest's numbers, of its tree and of its levels.
pub fn manifests_are_lawful_up_to_their_bounds()
    ensures ok { is_lawful_manifest 1 (with_arrays (two_leads ∷ [])) ≡ true }
    ensures changes { (is_lawful_manifest 1 (without_levels 4294967295) ≡ true)
        × (is_lawful_manifest 1 (without_levels 4294967296) ≡ false) }
    ensures updates { is_lawful_manifest 1 (record (without_levels 4) { updates = 5 }) ≡ false }
    ensures written { (is_lawful_manifest 1
        (record (without_levels 0) { written = 18446744073709551615 }) ≡ true)
        × (is_lawful_manifest 1 (record (without_levels 0) { written = 18446744073709551616 })
        ≡ false) }
    ensures next { (is_lawful_manifest 1
        (record (without_levels 0) { next_array = 18446744073709551615 }) ≡ true)
        × (is_lawful_manifest 1 (record (without_levels 0) { next_array = 18446744073709551616 })
        ≡ false)
        × (is_lawful_manifest 1 (record (without_levels 0) { next_array = 0 }) ≡ false) }
    ensures older { (is_lawful_manifest 1 (with_parents (0 ∷ 1 ∷ [])) ≡ true)
        × (is_lawful_manifest 1 (with_parents (0 ∷ 2 ∷ [])) ≡ false) }
    ensures versions { (is_lawful_manifest 1 (with_parents (replicate 16383 0)) ≡ true)
        × (is_lawful_manifest 1 (with_parents (replicate 16384 0)) ≡ false) }
    ensures horizon { is_lawful_manifest 1 (record (with_arrays (two_leads ∷ [])) {
      parents = 0 ∷ [];
      marks = false ∷ false ∷ [];
    }) ≡ false }
    ensures rising { is_lawful_manifest 1 (record (with_arrays (two_leads ∷ [])) {
      levels = odd_level 1 3 (two_leads ∷ []) ∷ odd_level 1 3 (two_leads ∷ []) ∷ [];
    }) ≡ false }
{}

/// A superblock is good with all fields at their least, and with all at their greatest. It is not where one
/// of them is past that.
pub fn superblocks_are_good_up_to_their_bounds()
    ensures least { in_range least_super ≡ true }
    ensures most { in_range greatest_super ≡ true }
    ensures format { (in_range (record greatest_super { format = 0 }) ≡ false)
        × (in_range (record greatest_super { format = 3 }) ≡ false) }
    ensures generation { in_range (record least_super { generation = 0 }) ≡ false }
    ensures manifest { (in_range (record least_super { manifest = 5 }) ≡ false)
        × (in_range (record greatest_super { manifest = 4294967295 }) ≡ false) }
    ensures length { (in_range (record least_super { length = 28 }) ≡ false)
        × (in_range (record least_super { format = 2; length = 38 }) ≡ true)
        × (in_range (record least_super { format = 2; length = 37 }) ≡ false) }
    ensures region { in_range (record greatest_super { region = 2 }) ≡ false }
    ensures mem { (in_range (record least_super { mem = 3 }) ≡ false)
        × (in_range (record greatest_super { mem = 4097 }) ≡ false) }
    ensures changes { (in_range (record least_super { changes_max = 0 }) ≡ false)
        × (in_range (record greatest_super { changes_max = 16777217 }) ≡ false) }
    ensures versions { (in_range (record least_super { versions_max = 0 }) ≡ false)
        × (in_range (record greatest_super { versions_max = 16385 }) ≡ false) }
{}

/// Of two slots the one of greater generation is chosen, and the first of two that have the same one.
pub fn ties_go_to_the_first_slot()
    ensures tie { newer (Some (of_generation 2 0)) (Some (of_generation 2 1))
        ≡ Some (0, of_generation 2 0) }
    ensures second { newer (Some (of_generation 2 0)) (Some (of_generation 3 1))
        ≡ Some (1, of_generation 3 1) }
    ensures first { newer (Some (of_generation 3 0)) (Some (of_generation 2 1))
        ≡ Some (0, of_generation 3 0) }
{}

/// A journal goes on in the other region once its active one is full, and not before.
pub fn full_regions_lead_to_the_other()
    ensures full { journal_of (with_puts (97 ∷ 98 ∷ 99 ∷ 100 ∷ []) (101 ∷ [])) 4 0
        ≡ Ok (map (λ key. record { change = put_of key; block = 2 }) (97 ∷ 98 ∷ 99 ∷ 100 ∷ [])
        ++ record { change = put_of 101; block = 4 } ∷ []) }
    ensures room { journal_of (with_puts (97 ∷ 98 ∷ 99 ∷ []) (101 ∷ [])) 4 0
        ≡ Ok (map (λ key. record { change = put_of key; block = 2 }) (97 ∷ 98 ∷ 99 ∷ [])) }
    ensures other { journal_of (with_puts (97 ∷ 98 ∷ 99 ∷ 100 ∷ []) (101 ∷ [])) 4 1
        ≡ Ok (record { change = put_of 101; block = 4 } ∷ []) }
{}

/// Recovery takes up to two records fewer than both regions have room for: six of eight here. One more is damage of the
/// other region's first block, also where no change follows the gate behind it; a gate without a change before that is damage of
/// its own block.
pub fn two_regions_hold_two_fewer()
    ensures five { journal_in_two (with_puts (97 ∷ 98 ∷ 99 ∷ 100 ∷ []) (101 ∷ [])) 4 0
        ≡ Ok (map (λ key. record { change = put_of key; block = 2 }) (97 ∷ 98 ∷ 99 ∷ 100 ∷ [])
        ++ record { change = put_of 101; block = 4 } ∷ []) }
    ensures six { journal_in_two (with_puts (97 ∷ 98 ∷ 99 ∷ 100 ∷ []) (101 ∷ 102 ∷ [])) 4 0
        ≡ Ok (map (λ key. record { change = put_of key; block = 2 }) (97 ∷ 98 ∷ 99 ∷ 100 ∷ [])
        ++ map (λ key. record { change = put_of key; block = 4 }) (101 ∷ 102 ∷ [])) }
    ensures seven { journal_in_two
        (with_puts (97 ∷ 98 ∷ 99 ∷ 100 ∷ []) (101 ∷ 102 ∷ 103 ∷ [])) 4 0 ≡ Err 4 }
    ensures more { journal_in_two
        (with_gate (97 ∷ 98 ∷ 99 ∷ 100 ∷ []) (101 ∷ 102 ∷ 103 ∷ [])) 4 0 ≡ Err 4 }
    ensures second { journal_in_two
        (with_puts (97 ∷ 98 ∷ 99 ∷ []) (101 ∷ 102 ∷ 103 ∷ 104 ∷ [])) 4 1 ≡ Err 2 }
    ensures gate { journal_in_two
        (with_gate (97 ∷ 98 ∷ 99 ∷ 100 ∷ []) (101 ∷ [])) 4 0 ≡ Err 4 }
    ensures room { journal_in_two (with_puts (97 ∷ []) (98 ∷ [])) 4 1
        ≡ Ok (record { change = put_of 98; block = 4 } ∷ []) }
    ensures shut { journal_in_two (with_puts [] (97 ∷ 98 ∷ 99 ∷ 100 ∷ [])) 4 1
        ≡ Ok (map (λ key. record { change = put_of key; block = 4 }) (97 ∷ 98 ∷ 99 ∷ 100 ∷ [])) }
{}

/// A record is known by the block of its gate, also where the gate is the last byte of that block, and where no change
/// follows the gate.
pub fn records_are_known_by_their_gates()
    ensures last { records (bytes_from 12287 (records_bytes (put_of 97 ∷ []))) 12310 1 12287
        ≡ Ok (record { change = put_of 97; block = 2 } ∷ []) }
    ensures first { records (bytes_from 12288 (records_bytes (put_of 97 ∷ []))) 12310 1 12288
        ≡ Ok (record { change = put_of 97; block = 3 } ∷ []) }
    ensures none { records (bytes_from 12287 (0xa7 ∷ [])) 12310 1 12287 ≡ Err 2 }
{}

/// A superblock's generation is read with all of its eight bytes, and its format with both of its bytes.
pub fn generations_have_eight_bytes()
    ensures format { slot_of (take 40 (0xa7 ∷ body (record new_super { format = 258 })))
        ≡ Some (record new_super { format = 258 }) }
    ensures ok { slot_of (take 40 (0xa7 ∷ body (record new_super { generation = 4294967298 })))
        ≡ Some (record new_super { generation = 4294967298 }) }
{}

/// What fills the last block behind a manifest is 0, from its first byte on.
pub fn the_first_byte_behind_a_manifest_counts()
    ensures ok { manifest_filled 1 29 (manifest_bytes 1 new_manifest ++ 0 ∷ [])
        ≡ Some new_manifest }
    ensures fill { manifest_filled 1 29 (manifest_bytes 1 new_manifest ++ 1 ∷ []) ≡ None }
{}

/// Where a whole chain has no manifest its first block is blamed.
pub fn the_first_block_of_a_chain_is_blamed()
    ensures { manifest_at 1 (chain_links 7 0) 6 4093 ≡ Err 6 }
{}

/// Format 2 has a place for entries that were compacted and for versions that were dropped, and format 1 has none.
pub fn the_first_format_has_no_drops()
    ensures one { (has_fields 1 (after_a_drop 0) ≡ false)
        × (has_fields 1 (record (after_a_drop 0) { marks = false ∷ false ∷ [] }) ≡ true)
        × (has_fields 1 (record (after_a_drop 1) { marks = false ∷ false ∷ [] }) ≡ false) }
    ensures two { has_fields 2 (after_a_drop 1) ≡ true }
    ensures other { (has_fields 0 new_manifest ≡ false) × (has_fields 3 new_manifest ≡ false) }
{}

/// The manifest of a store with a version that was dropped, as it is written and read in format 2. Each mark is 0 or 1.
pub fn bytes_of_a_drop()
    ensures written { manifest_bytes 2 (after_a_drop 258) ≡ after_a_drop_bytes (0 ∷ 1 ∷ []) }
    ensures read { manifest_in 2 (after_a_drop_bytes (0 ∷ 1 ∷ [])) ≡ Some (after_a_drop 258) }
    ensures living { manifest_in 2 (after_a_drop_bytes (0 ∷ 0 ∷ []))
        ≡ Some (record (after_a_drop 258) { marks = false ∷ false ∷ [] }) }
    ensures mark { manifest_in 2 (after_a_drop_bytes (0 ∷ 2 ∷ [])) ≡ None }
    ensures root { manifest_in 2 (after_a_drop_bytes (1 ∷ 1 ∷ [])) ≡ None }
    ensures few { manifest_in 2 (after_a_drop_bytes (0 ∷ [])) ≡ None }
    ensures one { manifest_in 1 (after_a_drop_bytes (0 ∷ 1 ∷ [])) ≡ None }
{}

/// The bounds of what format 2 has beside: entries compacted in eight bytes, a mark for each version, and version 0 living.
pub fn drops_are_lawful_up_to_their_bounds()
    ensures compacted { (is_lawful_manifest 2 (after_a_drop 18446744073709551615) ≡ true)
        × (is_lawful_manifest 2 (after_a_drop 18446744073709551616) ≡ false) }
    ensures marks { (is_lawful_manifest 2 (record (after_a_drop 0) { marks = false ∷ [] }) ≡ false)
        × (is_lawful_manifest 2 (record (after_a_drop 0) { marks = true ∷ true ∷ [] }) ≡ false) }
    ensures below { (is_lawful_manifest 2
        (record (after_a_drop 0) { parents = 0 ∷ 1 ∷ []; marks = false ∷ true ∷ true ∷ [] })
        ≡ true)
        × (is_lawful_manifest 2
        (record (after_a_drop 0) { parents = 0 ∷ 1 ∷ []; marks = false ∷ true ∷ false ∷ [] })
        ≡ false) }
    ensures format { is_lawful_manifest 1 (after_a_drop 0) ≡ false }
{}
