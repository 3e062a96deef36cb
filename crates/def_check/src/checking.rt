//! Laws of what a check finds. Each is the contract of a function that does nothing.

ghost use Rattle.std.specs.Prelude.{◌≡◌, ◌≢◌, ◌↔◌, ◌⊎◌, ℕ, List, [], ◌∷◌, Some, None, Ok, Err, IsTrue};
ghost use Rattle.std.specs.List.{Contains};
ghost use Rattle.strat_base.specs.declared.descriptors.ArrayDesc.{ArrayDesc};
ghost use Rattle.def_crash.specs.Image.{Image};
ghost use Rattle.def_recovery.specs.Bad.{IsUnread};
ghost use Rattle.def_recovery.specs.Disks.{formatted, published};
ghost use Rattle.def_recovery.specs.Head.{Head, descriptors};
ghost use Rattle.def_recovery.specs.Opening.{recover, reads_as};
ghost use Rattle.def_state.specs.Breach.{Breach, breach, breaches};
ghost use Rattle.def_state.specs.Sound.{IsSound};
ghost use Rattle.def_state.specs.State.{State};
ghost use Rattle.def_check.specs.Checked.{checked};
ghost use Rattle.def_check.specs.Worked.{lying, erased};

/// A check finds nothing wrong just where the disk reads as a sound state, and else all that its state breaks, in the order in
/// which rules are tried.
pub fn a_check_finds_what_a_state_breaks()
    ensures sound { (c : Image) → (checked c ≡ Ok (Some []))
        ↔ ((s : State) × (reads_as c ≡ Some s) × IsSound s) }
    ensures found { (c : Image) (found : List Breach) → checked c ≡ Ok (Some found)
        → (s : State) × (reads_as c ≡ Some s) × (breaches s ≡ found) }
    ensures same { (c : Image) (s : State) → reads_as c ≡ Some s
        → checked c ≡ Ok (Some (breaches s)) }
{}

/// A block that a check calls damaged is one that recovery refuses, or one of an array that is no block of entries.
pub fn a_check_blames_a_bad_block()
    ensures { (c : Image) (b : ℕ) → checked c ≡ Err b → (recover c ≡ Err b)
        ⊎ ((h : Head) × (recover c ≡ Ok (Some h))
        × ((a : ArrayDesc) × Contains (descriptors h.manifest) a × IsUnread c a b)) }
{}

/// Three rules are never the first that a check names: recovery refuses a store whose tags meet; leads are single where that
/// rule and the order of entries are kept; and where descriptors are right recovery has tested that there are few leads.
pub fn three_rules_are_never_named()
    ensures { (c : Image) (b : Breach) (later : List Breach) → checked c ≡ Ok (Some (b ∷ later))
        → (b.rule ≢ 97) × (b.rule ≢ 103) × (b.rule ≢ 108) }
{}

/// A disk that was just formatted and one after a checkpoint are sound; a disk of zeros is no store; a descriptor that lies breaks
/// rule k; a block of zeros is damaged.
pub fn worked_disks_are_checked()
    ensures fresh { checked formatted ≡ Ok (Some []) }
    ensures sound { checked published ≡ Ok (Some []) }
    ensures none { checked (λ i. 0) ≡ Ok None }
    ensures found { checked lying ≡ Ok (Some (breach 107 1 1 ∷ [])) }
    ensures damaged { checked erased ≡ Err 7 }
{}
