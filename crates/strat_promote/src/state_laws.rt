//! Laws of promotions that are begun over what holds a state. Each is the contract of a function that does nothing.

ghost use Rattle.std.specs.Prelude.{◌≡◌, ◌<◌, ◌≤◌, ℕ, ◌==◌, List, ◌++◌, length, Option};
ghost use Rattle.strat_base.specs.Change.{Change};
ghost use Rattle.strat_base.specs.declared.descriptors.LevelDesc.{LevelDesc};
ghost use Rattle.def_crash.specs.Blocks.{AgreeOn};
ghost use Rattle.def_crash.specs.Image.{Image};
ghost use Rattle.strat_extent.specs.Blocks.{SpaceView};
ghost use Rattle.strat_level.specs.Memtable.{ItemList};
ghost use Rattle.def_promote.specs.Paid.{IsLeastTarget};
ghost use Rattle.def_promote.specs.Promoted.{levels_to, levels_behind, promoted, Takeable};
ghost use Rattle.def_promote.specs.Sealed.{sealed_at, grown_by};
ghost use Rattle.def_state.specs.Sound.{IsOrdered, IsSound};
ghost use Rattle.def_state.specs.State.{State, IsPaid};
ghost use Rattle.strat_promote.specs.Closing.{AreAllUsed};
ghost use Rattle.strat_promote.specs.Job.{Job, arrays_to, blocks_listed};
ghost use Rattle.strat_promote.specs.Promotions.{IsBegun, IsOpen, HasBegun, IsItsJob, SamePromotion, target_of, writers_of};
ghost use Rattle.strat_promote.specs.Replacing.{LeavesTheSame};
ghost use Rattle.strat_promote.specs.Stages.{IsMade};
ghost use Rattle.strat_promote.specs.StateInputs.{IsBegunOver, LeavesPaid, purges_marks, job_of_state};
ghost use Rattle.strat_promote.specs.Steps.{Inputs};
ghost use Rattle.strat_promote.specs.declared.promotion.Promotion.{Promotion};

/// A promotion that was begun over a state may take the state's levels down to its target. The target is the least;
/// where it is level 1, once the journal is full. Marks that say nothing are dropped where no level lies behind it.
pub fn a_begun_promotion_takes_the_levels_of_a_state()
    ensures takes { (f : Image) (s : State) (inputs : Inputs) (p : Promotion) → IsOrdered s
        → IsBegunOver f s inputs p → Takeable s (target_of p)
        (levels_to (target_of p) s.levels) (levels_behind (target_of p) s.levels) }
    ensures least { (f : Image) (s : State) (inputs : Inputs) (p : Promotion) → IsOrdered s
        → IsBegunOver f s inputs p → (target_of p ≡ 1 → s.mem ≤ length s.journal)
        → IsLeastTarget s (target_of p) }
    ensures purges { (f : Image) (s : State) (inputs : Inputs) (p : Promotion) → IsOrdered s
        → IsBegunOver f s inputs p
        → purges_marks p ≡ (length (levels_behind (target_of p) s.levels) == 0) }
{}

/// Such a promotion has begun the job of the state with whatever image, has taken no blocks, and may be sliced.
pub fn a_begun_promotion_does_the_job_of_a_state()
    ensures kept { (zero : ItemList) (levels : List (Option LevelDesc)) (mem versions id : ℕ)
        (p : Promotion) → IsBegun zero levels mem versions id p → IsOpen p }
    ensures begun { (zero : ItemList) (levels : List (Option LevelDesc)) (mem versions id : ℕ)
        (p : Promotion) → IsBegun zero levels mem versions id p → (f : Image) (job : Job)
        → HasBegun f job p }
    ensures found { (zero : ItemList) (levels : List (Option LevelDesc)) (mem versions id : ℕ)
        (p : Promotion) → IsBegun zero levels mem versions id p → (space : SpaceView)
        → AreAllUsed space (writers_of p) }
    ensures job { (f : Image) (s : State) (inputs : Inputs) (p : Promotion) → IsOrdered s
        → IsBegunOver f s inputs p
        → IsItsJob f p inputs (job_of_state s inputs.levels (target_of p)) }
{}

/// The level that such a promotion made, in the place of level 0 and of the levels down to its target, leaves a sound state
/// that says the same, also where changes came since it was begun. The arrays kept their bytes from then on until the last
/// slice began.
pub fn a_promotion_of_a_state_says_the_same()
    ensures says { (f h g : Image) (s : State) (inputs : Inputs) (p q : Promotion) (first : ℕ)
        (made : Option LevelDesc) → IsSound s → IsBegunOver f s inputs p → SamePromotion p q
        → AgreeOn (blocks_listed (arrays_to inputs.levels (target_of p))) f h
        → IsMade h g (job_of_state s inputs.levels (target_of p)) (target_of q) first made
        → LeavesTheSame g made s (λ fresh written next_array.
        promoted s (fresh ++ levels_behind (target_of p) s.levels) written next_array) }
    ensures later { (f h g : Image) (s : State) (sealed rest : List Change) (inputs : Inputs)
        (p q : Promotion) (first : ℕ) (made : Option LevelDesc) → IsSound s
        → s.journal ≡ sealed ++ rest → IsBegunOver f (sealed_at s sealed) inputs p
        → SamePromotion p q
        → AgreeOn (blocks_listed (arrays_to inputs.levels (target_of p))) f h
        → IsMade h g (job_of_state (sealed_at s sealed) inputs.levels (target_of p))
        (target_of q) first made
        → LeavesTheSame g made s (λ fresh written next_array.
        grown_by (promoted (sealed_at s sealed)
        (fresh ++ levels_behind (target_of p) s.levels) written next_array) rest) }
{}

/// Where the state was paid, the state with that level is paid too, with the entries of the level as written.
pub fn a_promotion_of_a_state_is_paid_for()
    ensures { (f h g : Image) (s : State) (inputs : Inputs) (p q : Promotion) (first : ℕ)
        (made : Option LevelDesc) → IsOrdered s → IsPaid s → 0 < s.mem → s.updates ≤ s.changes
        → IsBegunOver f s inputs p → (target_of p ≡ 1 → s.mem ≤ length s.journal)
        → SamePromotion p q
        → AgreeOn (blocks_listed (arrays_to inputs.levels (target_of p))) f h
        → IsMade h g (job_of_state s inputs.levels (target_of p)) (target_of q) first made
        → LeavesPaid g made s (λ fresh written next_array.
        promoted s (fresh ++ levels_behind (target_of p) s.levels) written next_array) }
{}
