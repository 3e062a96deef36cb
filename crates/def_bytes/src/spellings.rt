//! Laws and examples of the bytes on the disk. Each is the contract of a function that does
//! nothing.

ghost use Rattle.std.specs.Prelude.{◌≡◌, ◌↔◌, ℕ, List, [], ◌∷◌, ◌++◌, true, false, length, replicate, Some, IsTrue};
ghost use Rattle.def_bytes.specs.Block.{fits_block, block_bytes, IsBlock, block_in};
ghost use Rattle.strat_base.specs.Entries.{Entry};
ghost use Rattle.def_bytes.specs.Manifest.{Manifest, is_lawful_manifest, new_manifest, manifest_bytes, SpellsManifest, manifest_in};
ghost use Rattle.def_bytes.specs.Samples.{with_marks};
ghost use Rattle.strat_base.specs.Samples.{says};

/// A block is read exactly where it is one, as the entries that it is the block of.
pub fn blocks_are_read_as_written()
    ensures read { (bytes : List ℕ) (entries : List Entry)
        → (block_in bytes ≡ Some entries) ↔ IsBlock bytes entries }
    ensures size { (entries : List Entry) → IsTrue (fits_block entries)
        → length (block_bytes entries) ≡ 4096 }
{}

/// The block of `a` with the value `1` at version 0.
#[tactic(auto, unfolding(strat_base::specs::Numbers::be, crate::specs::Block::block_bytes))]
pub fn bytes_of_a_block()
    ensures { block_bytes (says 0x61 0 0x31 ∷ [])
        ≡ (0 ∷ 1 ∷ 0 ∷ 4 ∷ 1 ∷ 0x61 ∷ 0 ∷ 0 ∷ 0 ∷ 0 ∷ 1 ∷ 0 ∷ 1 ∷ 0x31 ∷ []) ++ replicate 4082 0 }
{}

/// In either format a manifest is read exactly where its spelling is.
pub fn manifests_are_read_as_written()
    ensures { (format : ℕ) (bytes : List ℕ) (m : Manifest)
        → (manifest_in format bytes ≡ Some m) ↔ SpellsManifest format bytes m }
{}

/// The manifest of an empty store has 29 bytes in format 1, and 38 in format 2.
#[tactic(auto, unfolding(strat_base::specs::Numbers::be, crate::specs::Manifest::manifest_bytes))]
pub fn bytes_of_an_empty_manifest()
    ensures one { manifest_bytes 1 new_manifest
        ≡ replicate 23 0 ++ (1 ∷ 0 ∷ 0 ∷ 0 ∷ 1 ∷ 0 ∷ []) }
    ensures two { manifest_bytes 2 new_manifest
        ≡ replicate 31 0 ++ (1 ∷ 0 ∷ 0 ∷ 0 ∷ 1 ∷ 0 ∷ 0 ∷ []) }
{}

/// The bytes of a manifest in format 2: five entries written by merges of all levels, and two of three versions dropped.
#[tactic(auto, unfolding(strat_base::specs::Numbers::be, crate::specs::Manifest::manifest_bytes))]
pub fn bytes_of_a_manifest_with_marks()
    ensures { manifest_bytes 2 (with_marks 5 (false ∷ true ∷ true ∷ []))
        ≡ 0 ∷ 0 ∷ 0 ∷ 3 ∷ 0 ∷ 0 ∷ 0 ∷ 1 ∷ 0 ∷ 0 ∷ 0 ∷ 0 ∷ 0 ∷ 0 ∷ 0 ∷ 2
        ∷ 0 ∷ 0 ∷ 0 ∷ 0 ∷ 0 ∷ 0 ∷ 0 ∷ 5 ∷ 0 ∷ 0 ∷ 0 ∷ 0 ∷ 0 ∷ 0 ∷ 0 ∷ 4
        ∷ 0 ∷ 0 ∷ 0 ∷ 3 ∷ 0 ∷ 0 ∷ 0 ∷ 0 ∷ 0 ∷ 0 ∷ 0 ∷ 1 ∷ 0 ∷ 1 ∷ 1 ∷ 0 ∷ [] }
{}

/// Which manifests a format has. Format 1 has those without entries of such merges and without marks. In format 2 version 0
/// has no mark, below a marked version all are marked, and each version has one. There is no format 3.
#[tactic(auto, unfolding(crate::specs::Manifest::all_pass))]
pub fn formats_have_lawful_manifests()
    ensures one { is_lawful_manifest 1 (with_marks 0 (false ∷ false ∷ false ∷ [])) ≡ true }
    ensures compacted { is_lawful_manifest 1 (with_marks 5 (false ∷ false ∷ false ∷ [])) ≡ false }
    ensures marked { is_lawful_manifest 1 (with_marks 0 (false ∷ false ∷ true ∷ [])) ≡ false }
    ensures two { is_lawful_manifest 2 (with_marks 5 (false ∷ true ∷ true ∷ [])) ≡ true }
    ensures root { is_lawful_manifest 2 (with_marks 5 (true ∷ true ∷ true ∷ [])) ≡ false }
    ensures down { is_lawful_manifest 2 (with_marks 5 (false ∷ true ∷ false ∷ [])) ≡ false }
    ensures each { is_lawful_manifest 2 (with_marks 5 (false ∷ false ∷ [])) ≡ false }
    ensures fits { is_lawful_manifest 2 (with_marks 18446744073709551616
        (false ∷ false ∷ false ∷ [])) ≡ false }
    ensures none { is_lawful_manifest 3 new_manifest ≡ false }
{}
