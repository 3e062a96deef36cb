//! Draws, changes and frames of workloads, worked out by hand. Each is the contract of a function that does
//! nothing.

#![tactic(auto, unfolding(strat_base::specs::Numbers::be, def_texts::specs::Workload::changes_from))]

ghost use Rattle.std.specs.Prelude.{◌≡◌, [], ◌∷◌, codes, replicate, Some, None};
ghost use Rattle.strat_base.specs.Change.{Put, Delete, Clone};
ghost use Rattle.def_texts.specs.Workload.{next_draw, drawn, leaf_from, drawn_key, drawn_change, workload_changes, workload};

/// The first states for the seeds 0 and 1, and what they give. A draw has 31 bits.
pub fn draws_of_two_seeds()
    ensures zero { (next_draw 0 ≡ 1442695040888963407) × (drawn 1442695040888963407 ≡ 167951807) }
    ensures one { (next_draw 1 ≡ 7806831264735756412) × (drawn 7806831264735756412 ≡ 908834774) }
    ensures bits { (drawn 8589934591 ≡ 0) × (drawn 8589934592 ≡ 1)
        × (drawn 18446744073709551615 ≡ 2147483647) }
{}

/// A key has three digits.
pub fn keys_have_three_digits()
    ensures least { drawn_key 0 ≡ codes "k000" }
    ensures middle { drawn_key 120 ≡ codes "k120" }
    ensures most { drawn_key 987 ≡ codes "k987" }
{}

/// An update is of the first version from the drawn one on that has no child.
pub fn updates_are_of_leaves()
    ensures here { leaf_from (None ∷ Some 0 ∷ Some 0 ∷ []) 1 ≡ 1 }
    ensures next { leaf_from (None ∷ Some 0 ∷ Some 0 ∷ []) 0 ≡ 1 }
    ensures last { leaf_from (None ∷ Some 0 ∷ Some 1 ∷ []) 0 ≡ 2 }
{}

/// Of 64 draws one clones any version and one the newest, where there are fewer than 128; eight delete; the
/// others put the change's number.
pub fn draws_choose_the_change()
    ensures any { drawn_change (None ∷ Some 0 ∷ []) 12 0 4 7 ≡ Clone 0 }
    ensures newest { drawn_change (None ∷ Some 0 ∷ []) 12 1 4 7 ≡ Clone 1 }
    ensures delete { (drawn_change (None ∷ Some 0 ∷ []) 12 2 4 7 ≡ Delete 1 (codes "k007"))
        × (drawn_change (None ∷ Some 0 ∷ []) 12 9 4 7 ≡ Delete 1 (codes "k007")) }
    ensures put { (drawn_change (None ∷ Some 0 ∷ []) 12 10 4 7
        ≡ Put 1 (codes "k007") (codes "12"))
        × (drawn_change (None ∷ Some 0 ∷ []) 12 63 4 7 ≡ Put 1 (codes "k007") (codes "12")) }
    ensures last { (drawn_change (replicate 127 None) 12 0 130 7 ≡ Clone 3)
        × (drawn_change (replicate 127 None) 12 1 130 7 ≡ Clone 126) }
    ensures full { (drawn_change (replicate 128 None) 12 0 130 7
        ≡ Put 2 (codes "k007") (codes "12"))
        × (drawn_change (replicate 128 None) 12 1 130 7 ≡ Put 2 (codes "k007") (codes "12")) }
{}

/// The first changes for two seeds: the second begins with a clone of each kind, and goes on at the newest
/// version.
pub fn changes_of_two_seeds()
    ensures one { workload_changes 1 3 ≡ Put 0 (codes "k196") (codes "1")
        ∷ Put 0 (codes "k795") (codes "2") ∷ Put 0 (codes "k089") (codes "3") ∷ [] }
    ensures other { workload_changes 1557 6 ≡ Clone 0 ∷ Clone 1
        ∷ Put 2 (codes "k434") (codes "3") ∷ Put 2 (codes "k155") (codes "4")
        ∷ Put 2 (codes "k138") (codes "5") ∷ Delete 2 (codes "k047") ∷ [] }
{}

/// The frames of these, each with the change's number as its tag.
pub fn frames_of_two_seeds()
    ensures none { workload 1 0 ≡ [] }
    ensures one { workload 1 1 ≡ (0 ∷ 0 ∷ 0 ∷ 18 ∷ 0 ∷ 0 ∷ 0 ∷ 1 ∷ 1 ∷ 0 ∷ 0 ∷ 0 ∷ 0
        ∷ 0 ∷ 4 ∷ 0x6b ∷ 0x31 ∷ 0x39 ∷ 0x36 ∷ 0 ∷ 1 ∷ 0x31 ∷ []) ∷ [] }
    ensures two { workload 1557 2 ≡ (0 ∷ 0 ∷ 0 ∷ 9 ∷ 0 ∷ 0 ∷ 0 ∷ 1 ∷ 4 ∷ 0 ∷ 0 ∷ 0 ∷ 0 ∷ [])
        ∷ (0 ∷ 0 ∷ 0 ∷ 9 ∷ 0 ∷ 0 ∷ 0 ∷ 2 ∷ 4 ∷ 0 ∷ 0 ∷ 0 ∷ 1 ∷ []) ∷ [] }
{}
