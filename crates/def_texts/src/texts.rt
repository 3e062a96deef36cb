//! Texts of worked states, computed by the definitions, and what lists of versions say. Each is a
//! call that does nothing, and its clauses are what it says.

#![tactic(auto)]

ghost use Rattle.std.specs.Prelude.{◌≡◌, ℕ, List, [], ◌∷◌, ◌++◌, flat_map, codes, Some, None, IsTrue};
ghost use Rattle.std.specs.List.{AllByRecursion, list_all};
ghost use Rattle.def_state.specs.Breach.{breaches};
ghost use Rattle.def_state.specs.Broken.{wrong_descriptor};
ghost use Rattle.def_state.specs.State.{fresh_state};
ghost use Rattle.def_state.specs.Worked.{chain, fan, deleted_below};
ghost use Rattle.def_meaning.specs.Settings.{settings};
ghost use Rattle.def_recovery.specs.Head.{head_of};
ghost use Rattle.def_texts.specs.Texts.{text, format_line, report, summary, check_line, damaged_line, versions_text, runs_of, numbers_of, are_separate, has_number, sparsest, IsSparser, IsNoDenser};
ghost use Rattle.strat_base.specs.declared.descriptors.ArrayDesc.{ArrayDesc};

/// The report of a chain of clones with one key at its second version.
pub fn report_of_a_chain()
    ensures { report (head_of 2 chain)
        ≡ codes "store generation 2 mem 4 changes 5 of 100 versions 4 of 10"
        ∷ codes "journal changes 1 updates 1"
        ∷ codes "level 1 horizon 4 leads 1 entries 1"
        ∷ codes "array 1 density 1/1 lead 1/1 versions 1-3"
        ∷ codes "stored 2 updates 2 written 1" ∷ [] }
{}

/// The report of three children of one version, each with a key of its own.
pub fn report_of_a_fan()
    ensures { report (head_of 2 fan)
        ≡ codes "store generation 2 mem 8 changes 9 of 100 versions 4 of 10"
        ∷ codes "journal changes 1 updates 1"
        ∷ codes "level 1 horizon 4 leads 5 entries 7"
        ∷ codes "array 1 density 2/3 lead 3/3 versions 0-1"
        ∷ codes "array 2 density 3/4 lead 2/4 versions 2-3"
        ∷ codes "stored 8 updates 6 written 7" ∷ [] }
{}

/// The report of a key that is gone at a child while its parent has it.
pub fn report_of_a_deletion()
    ensures { report (head_of 2 deleted_below)
        ≡ codes "store generation 2 mem 4 changes 5 of 100 versions 3 of 10"
        ∷ codes "journal changes 1 updates 1"
        ∷ codes "level 1 horizon 3 leads 2 entries 3"
        ∷ codes "array 1 density 1/1 lead 1/1 versions 0"
        ∷ codes "array 2 density 1/2 lead 1/2 versions 1-2"
        ∷ codes "stored 4 updates 3 written 3" ∷ [] }
{}

/// The report of settings with two clones, each with a change of its own, before any checkpoint.
pub fn report_of_staged_settings()
    ensures { report (head_of 1 settings)
        ≡ codes "store generation 1 mem 64 changes 6 of 100000 versions 3 of 100"
        ∷ codes "journal changes 6 updates 4"
        ∷ codes "stored 4 updates 4 written 0" ∷ [] }
{}

/// The summary of a workload of no changes.
pub fn summary_of_nothing()
    ensures { summary (head_of 1 (fresh_state 64 16777216 16384)) 1 0
        ≡ codes "workload seed 1 changes 0"
        ∷ codes "versions 1 updates 0 clones 0"
        ∷ codes "levels 0 arrays 0 stored 0 written 0"
        ∷ codes "density none" ∷ [] }
{}

/// The summary of the fan names its sparser array.
pub fn summary_of_a_fan()
    ensures { summary (head_of 2 fan) 7 9
        ≡ codes "workload seed 7 changes 9"
        ∷ codes "versions 4 updates 6 clones 3"
        ∷ codes "levels 1 arrays 2 stored 8 written 7"
        ∷ codes "density 2/3" ∷ [] }
{}

/// The line that formatting prints, with its line feed.
pub fn text_of_a_new_store()
    ensures { text (format_line 4 100 10 ∷ [])
        ≡ codes "format 2 mem 4 changes 100 versions 10" ++ 10 ∷ [] }
{}

/// The lines of checks: of a sound state, of one with a wrong descriptor, and of a damaged block.
pub fn lines_of_checks()
    ensures sound { check_line (breaches fan) ≡ codes "sound" }
    ensures unsound { check_line (breaches wrong_descriptor)
        ≡ codes "unsound k level 1 array 1" }
    ensures damaged { damaged_line 7 ≡ codes "damaged block 7" }
{}

/// Lists of versions: one, a run, and both with a gap between them.
pub fn texts_of_versions()
    ensures one { versions_text (5 ∷ []) ≡ codes "5" }
    ensures run { versions_text (2 ∷ 3 ∷ 4 ∷ []) ≡ codes "2-4" }
    ensures both { versions_text (0 ∷ 2 ∷ 3 ∷ 4 ∷ 6 ∷ 7 ∷ 11 ∷ []) ≡ codes "0,2-4,6-7,11" }
{}

/// The runs of a list are its numbers, each has one at least, and none goes on where the one before it ends.
pub fn runs_are_the_longest()
    ensures same { (vs : List ℕ) → flat_map numbers_of (runs_of vs) ≡ vs }
    ensures some { (vs : List ℕ) → IsTrue (list_all has_number (runs_of vs)) }
    ensures apart { (vs : List ℕ) → IsTrue (are_separate (runs_of vs)) }
{}

/// The sparsest of some arrays is the first whose density is least.
pub fn sparsest_is_least()
    ensures none { sparsest [] ≡ None }
    ensures ok { (before after : List ArrayDesc) (a : ArrayDesc)
        → AllByRecursion (IsSparser a) before → AllByRecursion (IsNoDenser a) after
        → sparsest (before ++ a ∷ after) ≡ Some a }
{}
