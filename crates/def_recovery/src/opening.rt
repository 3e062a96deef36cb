//! Laws of what recovery finds in bytes. Each is the contract of a function that does nothing.

ghost use Rattle.std.specs.Prelude.{◌≡◌, ℕ, true, false, [], ◌∷◌, ◌++◌, length, map, take, Some, None, Ok, Err};
ghost use Rattle.strat_base.specs.Change.{Put, Clone, DropVersion, change_bytes};
ghost use Rattle.def_crash.specs.Image.{Image, patch};
ghost use Rattle.def_bytes.specs.Manifest.{manifest_bytes, new_manifest};
ghost use Rattle.strat_base.specs.Numbers.{be};
ghost use Rattle.def_state.specs.Sound.{IsWellFormed, IsSound};
ghost use Rattle.def_state.specs.State.{State, fresh_state, versions_of, updates_of, changes_of};
ghost use Rattle.def_bytes.specs.SuperBlock.{body};
ghost use Rattle.def_state.specs.Worked.{chain};
ghost use Rattle.def_recovery.specs.Bad.{IsBad};
ghost use Rattle.def_recovery.specs.Disks.{formatted, old_formatted, first_block, old_first_block, manifest_block, old_manifest_block, new_super, old_super, new_head, chain_super, chain_manifest, with_horizon, published_over, published_by, published, last_dropped, doubly_open};
ghost use Rattle.def_recovery.specs.Head.{Head, head_of, head_versions, head_updates, head_changes, descriptors};
ghost use Rattle.def_recovery.specs.Opening.{recover, reads_as, state_of};
ghost use Rattle.def_recovery.specs.Passed.{PassesOpening};

/// A disk that was just formatted opens as a new store.
pub fn formatted_disks_open()
    ensures found { recover formatted ≡ Ok (Some new_head) }
    ensures ok { reads_as formatted ≡ Some (fresh_state 4 100 10) }
    ensures block { first_block ≡ take 40 (0xa7 ∷ body new_super) }
    ensures manifest { manifest_block ≡ be 4 0 ++ manifest_bytes 2 new_manifest }
{}

/// So does one that was formatted in format 1, by a build before format 2.
pub fn old_disks_open()
    ensures found { recover old_formatted ≡ Ok (Some (record new_head { sb = old_super })) }
    ensures ok { reads_as old_formatted ≡ Some (fresh_state 4 100 10) }
    ensures block { old_first_block ≡ take 40 (0xa7 ∷ body old_super) }
    ensures manifest { old_manifest_block ≡ be 4 0 ++ manifest_bytes 1 new_manifest }
{}

/// A record in the journal's active region is read: a put of `a` with the value `1` at version 0; and a
/// clone of version 0, a drop of that clone, and then a put at version 0 again.
pub fn records_are_found()
    ensures ok { reads_as (patch formatted 8192
        (0xa7 ∷ 1 ∷ 0 ∷ 0 ∷ 0 ∷ 0 ∷ 1 ∷ 0x61 ∷ 0 ∷ 1 ∷ 0x31 ∷ 0 ∷ []))
        ≡ Some (record (fresh_state 4 100 10) { journal = Put 0 (0x61 ∷ []) (0x31 ∷ []) ∷ [] }) }
    ensures drop { reads_as (patch formatted 8192
        (0xa7 ∷ 3 ∷ 0 ∷ 0 ∷ 0 ∷ 0 ∷ 0xa7 ∷ 4 ∷ 0 ∷ 0 ∷ 0 ∷ 1
        ∷ 0xa7 ∷ 1 ∷ 0 ∷ 0 ∷ 0 ∷ 0 ∷ 1 ∷ 0x61 ∷ 0 ∷ 1 ∷ 0x31 ∷ 0 ∷ []))
        ≡ Some (record (fresh_state 4 100 10) {
          journal = Clone 0 ∷ DropVersion 1 ∷ Put 0 (0x61 ∷ []) (0x31 ∷ []) ∷ [];
        }) }
{}

/// After a checkpoint the newer superblock leads to the array, and the journal goes on in the
/// region that it made active: the state is that of a chain of clones. Where that region has room, what
/// stands in the other one is not looked at. A manifest may say that the last of the chain was dropped, and
/// then its parent takes an update.
pub fn published_disks_open()
    ensures ok { reads_as published ≡ Some chain }
    ensures other { reads_as (patch published 8192 (0xa7 ∷ [])) ≡ Some chain }
    ensures dropped { reads_as (patch
        (published_by chain_super (record chain_manifest { marks = last_dropped })) 16384
        (0xa7 ∷ change_bytes (Put 2 (98 ∷ []) (49 ∷ []))))
        ≡ Some (record chain {
          marks = last_dropped;
          journal = Put 2 (98 ∷ []) (49 ∷ []) ∷ [];
        }) }
{}

/// A store of format 1 reads as the same state after a checkpoint in either format.
pub fn old_disks_move_on()
    ensures one { reads_as (published_over old_formatted
        (record chain_super { format = 1; length = 98 }) chain_manifest) ≡ Some chain }
    ensures two { reads_as (published_over old_formatted chain_super chain_manifest)
        ≡ Some chain }
{}

/// What recovery refuses: a superblock out of its ranges, a chain that goes on after its last
/// block or back to its first, bytes after the manifest that are no zeros, an open gate with no change
/// after it, a change that the table refuses, and an open gate in the other region where the active one is
/// full. A disk of zeros is no store. The table refuses a put at a version that was not made, or was
/// dropped, and a drop of version 0, of a version with a living child, and of one that was dropped.
pub fn damage_is_named()
    ensures none { recover (λ i. 0) ≡ Ok None }
    ensures region { recover (patch formatted 27 (2 ∷ [])) ≡ Err 0 }
    ensures link { recover (patch formatted 24579 (7 ∷ [])) ≡ Err 6 }
    ensures circle { recover (patch formatted 24579 (6 ∷ [])) ≡ Err 6 }
    ensures fill { recover (patch formatted 28671 (1 ∷ [])) ≡ Err 6 }
    ensures gate { recover (patch formatted 8192 (0xa7 ∷ [])) ≡ Err 2 }
    ensures refused { recover (patch formatted 8192
        (0xa7 ∷ 1 ∷ 0 ∷ 0 ∷ 0 ∷ 5 ∷ 1 ∷ 0x61 ∷ 0 ∷ 1 ∷ 0x31 ∷ 0 ∷ [])) ≡ Err 2 }
    ensures dropped { recover (patch formatted 8192
        (0xa7 ∷ 3 ∷ 0 ∷ 0 ∷ 0 ∷ 0 ∷ 0xa7 ∷ 4 ∷ 0 ∷ 0 ∷ 0 ∷ 1
        ∷ 0xa7 ∷ 1 ∷ 0 ∷ 0 ∷ 0 ∷ 1 ∷ 1 ∷ 0x61 ∷ 0 ∷ 1 ∷ 0x31 ∷ 0 ∷ [])) ≡ Err 2 }
    ensures root { recover (patch formatted 8192 (0xa7 ∷ 4 ∷ 0 ∷ 0 ∷ 0 ∷ 0 ∷ 0 ∷ [])) ≡ Err 2 }
    ensures frozen { recover (patch formatted 8192
        (0xa7 ∷ 3 ∷ 0 ∷ 0 ∷ 0 ∷ 0 ∷ 0xa7 ∷ 3 ∷ 0 ∷ 0 ∷ 0 ∷ 1
        ∷ 0xa7 ∷ 4 ∷ 0 ∷ 0 ∷ 0 ∷ 1 ∷ 0 ∷ [])) ≡ Err 2 }
    ensures twice { recover (patch formatted 8192
        (0xa7 ∷ 3 ∷ 0 ∷ 0 ∷ 0 ∷ 0 ∷ 0xa7 ∷ 4 ∷ 0 ∷ 0 ∷ 0 ∷ 1
        ∷ 0xa7 ∷ 4 ∷ 0 ∷ 0 ∷ 0 ∷ 1 ∷ 0 ∷ [])) ≡ Err 2 }
    ensures marked { recover (published_by
        chain_super (record chain_manifest { marks = last_dropped })) ≡ Err 4 }
    ensures full { recover doubly_open ≡ Err 4 }
{}

/// A manifest that no store with its superblock has is blamed on its first block: one with a version that
/// is not below the horizon, with more versions than the store takes, with more leads than updates, with
/// fewer changes than checkpoints, with a living version below a dropped one.
pub fn strange_manifests_are_refused()
    ensures horizon { recover (published_by chain_super
        (record chain_manifest { levels = map (with_horizon 3) chain_manifest.levels })) ≡ Err 8 }
    ensures versions { recover (published_by
        (record chain_super { versions_max = 3 }) chain_manifest) ≡ Err 8 }
    ensures updates { recover (published_by
        chain_super (record chain_manifest { updates = 0 })) ≡ Err 8 }
    ensures generation { recover (published_by
        (record chain_super { generation = 6 }) chain_manifest) ≡ Err 8 }
    ensures marks { recover (published_by chain_super
        (record chain_manifest { marks = false ∷ false ∷ true ∷ false ∷ [] })) ≡ Err 8 }
{}

/// What the bytes of a disk read as is a well formed state.
pub fn what_is_read_may_be_opened()
    ensures { (c : Image) (s : State) → reads_as c ≡ Some s → IsWellFormed s }
{}

/// It has what an opening tests beside that: its limits and counts are within what they may be, no
/// array has the number of another or of one to come, no tag is empty, and all keys and values have lawful
/// sizes.
pub fn what_is_read_has_passed_an_opening()
    ensures { (c : Image) (s : State) → reads_as c ≡ Some s → PassesOpening s }
{}

/// The counts of a head are those of the state that it is the head of.
pub fn heads_count_as_their_states()
    ensures { (c : Image) (h : Head) (s : State) → state_of c h ≡ Some s
        → (head_versions h ≡ versions_of s) × (head_updates h ≡ updates_of s)
        × (head_changes h ≡ changes_of s) }
{}

/// A disk that reads as a sound state has no bad block: recovery refuses none, and each block of
/// its arrays holds entries that fit their place.
pub fn sound_disks_have_no_bad_block()
    ensures { (c : Image) (h : Head) (s : State) (b : ℕ) → recover c ≡ Ok (Some h)
        → state_of c h ≡ Some s → IsSound s
        → ¬ IsBad c (length (versions_of s)) (descriptors h.manifest) (descriptors h.manifest) b }
{}
