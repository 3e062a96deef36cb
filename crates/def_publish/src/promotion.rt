//! Laws of the contents that a promotion leaves. Each is the contract of a function that does nothing.

ghost use Rattle.std.specs.Prelude.{◌≡◌, ◌≤◌, ℕ, List, ◌∷◌, ◌++◌, length, drop, Some, IsTrue};
ghost use Rattle.strat_base.specs.declared.descriptors.LevelDesc.{LevelDesc};
ghost use Rattle.def_crash.specs.Image.{Image};
ghost use Rattle.def_bytes.specs.Arrays.{all_some};
ghost use Rattle.def_bytes.specs.Chain.{IsChain};
ghost use Rattle.def_bytes.specs.Manifest.{SpellsManifest};
ghost use Rattle.def_promote.specs.Promoted.{SaysTheSame, promoted};
ghost use Rattle.def_recovery.specs.Opened.{level_on};
ghost use Rattle.def_recovery.specs.Opening.{belongs};
ghost use Rattle.def_meaning.specs.StateTable.{table_of};
ghost use Rattle.def_state.specs.Level.{Level};
ghost use Rattle.def_state.specs.Sound.{IsSound};
ghost use Rattle.def_state.specs.State.{State};
ghost use Rattle.def_publish.specs.Contents.{Contents, contents_state};
ghost use Rattle.def_publish.specs.Next.{state_after};
ghost use Rattle.def_publish.specs.Publication.{IsPromotedFrom};
ghost use Rattle.def_publish.specs.Standing.{LiesIn};

/// States that say the same mean the same table.
#[tactic(auto, using(crate::proofs::TableLemmas::same_table))]
pub fn states_that_say_the_same_mean_one_table()
    ensures { (old new : State) → SaysTheSame old new → table_of new ≡ table_of old }
{}

/// Contents with the manifest of a promotion have its state.
#[tactic(auto, using(crate::proofs::PromotedLemmas::promoted_state))]
pub fn promoted_contents_have_the_promoted_state()
    ensures { (old new : Contents) → IsSound (contents_state old) → IsPromotedFrom old new
        → contents_state new ≡ state_after old new }
{}

/// Where a journal has no more changes than a region takes, nothing comes behind what is promoted.
#[tactic(auto, using(crate::proofs::PromotedLemmas::promoted_whole))]
pub fn short_journals_are_promoted_whole()
    ensures { (old new : Contents) → length old.journal ≤ old.sb.mem
        → state_after old new ≡ promoted (contents_state old) new.levels
        new.chained.manifest.written new.chained.manifest.next_array }
{}

/// Contents lie where they were written: the manifest in a chain of blocks, fresh levels in front of those that
/// are kept of other contents.
pub fn contents_lie_where_they_were_written()
    ensures levels { (c : Image) (x : Contents) (taken kept fresh : List LevelDesc)
        (levels : List Level) → LiesIn c x → x.chained.manifest.levels ≡ taken ++ kept
        → all_some (level_on c) fresh ≡ Some levels
        → all_some (level_on c) (fresh ++ kept) ≡ Some (levels ++ drop (length taken) x.levels) }
    ensures lies { (c : Image) (y : Contents) (blocks bytes : List ℕ)
        → SpellsManifest y.sb.format bytes y.chained.manifest
        → IsChain c (y.sb.manifest ∷ blocks) bytes
        → y.chained.blocks ≡ y.sb.manifest ∷ blocks → y.sb.length ≡ length bytes
        → IsTrue (belongs y.sb y.chained)
        → all_some (level_on c) y.chained.manifest.levels ≡ Some y.levels → LiesIn c y }
{}
