//! Laws of the change that ends an open promotion. Each is the contract of a function that does nothing.

ghost use Rattle.std.specs.Prelude.{◌≡◌, ◌≤◌, ◌<◌, ℕ, ◌+◌, ◌*◌, List, [], ◌∷◌, ◌++◌, length, drop, Option, None};
ghost use Rattle.strat_array.specs.Taking.{AreUsed};
ghost use Rattle.strat_base.specs.Change.{Change};
ghost use Rattle.strat_base.specs.Entries.{Entry};
ghost use Rattle.strat_base.specs.declared.descriptors.Extent.{Extent};
ghost use Rattle.strat_base.specs.declared.descriptors.LevelDesc.{LevelDesc};
ghost use Rattle.def_crash.specs.Blocks.{KeepsTaken, TearsBlocks};
ghost use Rattle.def_crash.specs.Image.{Image};
ghost use Rattle.def_crash.specs.Moments.{Exposes, OnlyReads, IsDurable};
ghost use Rattle.def_crash.specs.Trail.{Trail};
ghost use Rattle.strat_extent.specs.Blocks.{SpaceView, is_free};
ghost use Rattle.strat_journal.specs.Log.{Log};
ghost use Rattle.strat_model.specs.Step.{step};
ghost use Rattle.strat_promote.specs.Budget.{count_of_key};
ghost use Rattle.strat_promote.specs.Closing.{AreAllUsed};
ghost use Rattle.strat_promote.specs.Job.{Job, blocks_listed};
ghost use Rattle.strat_promote.specs.Owned.{OwnsItsBlocks};
ghost use Rattle.strat_promote.specs.Promotions.{IsItsJob, HasBegun, IsSliced, SamePromotion, writers_of, entries_taken, target_of, level_of};
ghost use Rattle.strat_promote.specs.Replacing.{LeavesTheSame};
ghost use Rattle.strat_promote.specs.StateInputs.{LeavesPaid};
ghost use Rattle.strat_promote.specs.Steps.{Inputs};
ghost use Rattle.strat_promote.specs.declared.promotion.Progress.TheVariants as progress;
ghost use Rattle.strat_promote.specs.declared.promotion.Promotion.{Promotion};
ghost use Rattle.def_promote.specs.Promoted.{promoted, levels_behind};
ghost use Rattle.def_promote.specs.Sealed.{grown_by};
ghost use Rattle.def_meaning.specs.StateTable.{table_of, request_for};
ghost use Rattle.def_slice.specs.Budget.{KeepsToBudget};
ghost use Rattle.def_slice.specs.Ending.{SlicesLast, IsLastMade, EndsOpen};
ghost use Rattle.def_slice.specs.Opened.{AreLent, OpenPromotion, IsOpenOver, StandsOpen, IsMostOfKey, job_open, slice_numbers};
ghost use Rattle.def_publish.specs.Appending.{with_batch};
ghost use Rattle.def_publish.specs.Contents.{Contents, contents_state, sealed_state, later_part};
ghost use Rattle.def_publish.specs.Next.{IsNextOf, HasManifest};
ghost use Rattle.def_publish.specs.Occupied.{IsSpaceOf};
ghost use Rattle.def_publish.specs.Publication.{IsPrepared};
ghost use Rattle.def_publish.specs.Standing.{ReadsAs, ShowsTable, LeavesContent, ContentsStand};
ghost use Rattle.def_state.specs.Sound.{IsSound, Takes};
ghost use Rattle.def_state.specs.State.{IsPaid};

use def_crash::laws::Viewed;

/// Where `slice` answers Done over what is lent to an open promotion, it was the last one, by its clauses alone.
pub fn a_slice_is_the_last_by_its_clauses<D: Viewed>()
    ensures { (old new : D) (f g : Image) (x : Contents) (fill : ℕ) (sealed : List Entry)
        (levels : List (Option LevelDesc)) (others : List Extent) (o : OpenPromotion)
        (q : Promotion) (inputs : Inputs) → Exposes (D.view old) f → ReadsAs f x
        → IsSound (contents_state x) → (p : IsOpenOver f x fill sealed levels others o)
        → AreLent sealed levels (sealed_state x) inputs → Exposes (D.view new) g
        → TearsBlocks (is_free o.space) (D.view old) (D.view new) × SamePromotion o.promotion q
        → ((g h : Image) (job : Job) → Exposes (D.view old) g → Exposes (D.view new) h
        → IsItsJob g o.promotion inputs job → AreUsed o.space (blocks_listed job.arrays)
        → HasBegun g job o.promotion
        → IsSliced g h job (entries_taken o.promotion + o.budget) q progress.Done)
        → SlicesLast f g x sealed levels (job_open x levels p.going.was) o q inputs }
{}

/// The last slice: in the place of what was sealed and of the levels down to its target the level that was made
/// leaves a sound state that says the same, with the later changes behind it; and it is paid for.
pub fn a_last_slice_may_be_published()
    ensures says { (f g : Image) (x : Contents) (fill : ℕ) (sealed : List Entry)
        (levels : List (Option LevelDesc)) (others : List Extent) (o : OpenPromotion)
        (q : Promotion) (inputs : Inputs) → (p : IsOpenOver f x fill sealed levels others o)
        → SlicesLast f g x sealed levels (job_open x levels p.going.was) o q inputs
        → LeavesTheSame g (level_of q) (contents_state x) (λ fresh written next.
        grown_by (promoted (sealed_state x) (fresh ++ levels_behind (target_of q) x.levels)
        written next) (later_part x)) }
    ensures paid { (f g : Image) (x : Contents) (fill : ℕ) (sealed : List Entry)
        (levels : List (Option LevelDesc)) (others : List Extent) (o : OpenPromotion)
        (q : Promotion) (inputs : Inputs) → (p : IsOpenOver f x fill sealed levels others o)
        → SlicesLast f g x sealed levels (job_open x levels p.going.was) o q inputs
        → IsPaid (contents_state x) → 0 < x.sb.mem
        → x.chained.manifest.updates ≤ x.chained.manifest.changes
        → LeavesPaid g (level_of q) (sealed_state x) (λ fresh written next.
        promoted (sealed_state x) (fresh ++ levels_behind (target_of q) x.levels) written next) }
{}

/// It did not come early: with the entries of one key, both passes have fewer than were taken and the budget. So it
/// keeps to its budget.
pub fn a_last_slice_is_not_early()
    ensures late { (f g : Image) (x : Contents) (fill : ℕ) (sealed : List Entry)
        (levels : List (Option LevelDesc)) (others : List Extent) (o : OpenPromotion)
        (q : Promotion) (inputs : Inputs) → (p : IsOpenOver f x fill sealed levels others o)
        → SlicesLast f g x sealed levels (job_open x levels p.going.was) o q inputs
        → (key : List ℕ) × (2 * o.sum < entries_taken o.promotion + o.budget
        + count_of_key f (job_open x levels p.going.was) key) }
    ensures budget { (f g : Image) (x : Contents) (fill : ℕ) (sealed : List Entry)
        (levels : List (Option LevelDesc)) (others : List Extent) (o : OpenPromotion)
        (q : Promotion) (inputs : Inputs) (most : ℕ)
        → (p : IsOpenOver f x fill sealed levels others o)
        → SlicesLast f g x sealed levels (job_open x levels p.going.was) o q inputs
        → IsMostOfKey f (job_open x levels p.going.was) most
        → KeepsToBudget (slice_numbers o) most None }
{}

/// What the last slice made stands in new arrays; it stays where later writes, those of the manifest, go to free
/// blocks; and a sync then prepares the contents that are computed of it.
pub fn what_a_last_slice_made_is_prepared<D: Viewed>()
    ensures made { (f g : Image) (x : Contents) (fill : ℕ) (sealed : List Entry)
        (levels : List (Option LevelDesc)) (others : List Extent) (o : OpenPromotion)
        (q : Promotion) (inputs : Inputs) → (p : IsOpenOver f x fill sealed levels others o)
        → SlicesLast f g x sealed levels (job_open x levels p.going.was) o q inputs
        → OwnsItsBlocks (writers_of q) (level_of q) → IsLastMade g x (target_of q) (level_of q) }
    ensures stays { (g h : Image) (x : Contents) (target : ℕ) (made : Option LevelDesc)
        (s : SpaceView) (q : Promotion) → IsLastMade g x target made
        → OwnsItsBlocks (writers_of q) made → AreAllUsed s (writers_of q)
        → KeepsTaken (is_free s) g h → IsLastMade h x target made }
    ensures prepared { (v w : D) (x y : Contents) (target : ℕ) (made : Option LevelDesc)
        (taken kept : List LevelDesc) (s : SpaceView) (others : List Extent)
        (stands : ContentsStand (D.view v) x) → (m : IsLastMade stands.content x target made)
        → x.sb.mem ≤ length x.journal → IsNextOf x y made taken kept
        → y.levels ≡ m.says.fresh ++ levels_behind target x.levels
        → levels_behind target x.levels ≡ drop (length taken) x.levels → IsSpaceOf s y others
        → HasManifest stands.content y → OnlyReads (D.view v) (D.view w) → IsDurable (D.view w)
        → LeavesContent (D.view w) → IsPrepared (D.view w) x y }
{}

/// A change that ends an open promotion publishes what it left, and then comes its record, in the region that is
/// active then: there is room for it, and it is a trail of two tables, of which the later one is that of the step.
/// The journal is shorter by a region, but for the change.
pub fn a_change_that_ends_a_promotion_is_a_trail_of_two_tables<D: Viewed>()
    ensures takes { (v0 mid lay v1 v2 : D) (x y : Contents) (sealed : List Entry)
        (levels : List (Option LevelDesc)) (others : List Extent) (o : OpenPromotion)
        (log turned : Log) (change : Change) → StandsOpen (D.view v0) x sealed levels others o
        → EndsOpen (D.view v0) (D.view mid) (D.view lay) (D.view v1) (D.view v2)
        x y o log turned change
        → Takes (contents_state y) change }
    ensures trail { (v0 mid lay v1 v2 : D) (x y : Contents) (sealed : List Entry)
        (levels : List (Option LevelDesc)) (others : List Extent) (o : OpenPromotion)
        (log turned : Log) (change : Change) → StandsOpen (D.view v0) x sealed levels others o
        → EndsOpen (D.view v0) (D.view mid) (D.view lay) (D.view v1) (D.view v2)
        x y o log turned change
        → Trail ShowsTable (D.view v2) (D.view v0).moment (table_of (contents_state x)
        ∷ table_of (contents_state (with_batch y (change ∷ []))) ∷ []) 1 }
    ensures step { (v0 mid lay v1 v2 : D) (x y : Contents) (sealed : List Entry)
        (levels : List (Option LevelDesc)) (others : List Extent) (o : OpenPromotion)
        (log turned : Log) (change : Change) → StandsOpen (D.view v0) x sealed levels others o
        → EndsOpen (D.view v0) (D.view mid) (D.view lay) (D.view v1) (D.view v2)
        x y o log turned change
        → table_of (contents_state (with_batch y (change ∷ [])))
        ≡ (step (table_of (contents_state x)) (request_for change)).table }
    ensures stands { (v0 mid lay v1 v2 : D) (x y : Contents) (sealed : List Entry)
        (levels : List (Option LevelDesc)) (others : List Extent) (o : OpenPromotion)
        (log turned : Log) (change : Change) → StandsOpen (D.view v0) x sealed levels others o
        → EndsOpen (D.view v0) (D.view mid) (D.view lay) (D.view v1) (D.view v2)
        x y o log turned change
        → ContentsStand (D.view v2) (with_batch y (change ∷ [])) }
    ensures fill { (v0 mid lay v1 v2 : D) (x y : Contents) (sealed : List Entry)
        (levels : List (Option LevelDesc)) (others : List Extent) (o : OpenPromotion)
        (log turned : Log) (change : Change) → StandsOpen (D.view v0) x sealed levels others o
        → EndsOpen (D.view v0) (D.view mid) (D.view lay) (D.view v1) (D.view v2)
        x y o log turned change
        → length (with_batch y (change ∷ [])).journal + x.sb.mem ≡ length x.journal + 1 }
{}

/// A promotion that ends in its first slice is that of a whole journal: where the journal just fills its region, what
/// was made takes the place of all of it, and after the change the journal has that change alone.
pub fn a_first_slice_that_is_the_last_promotes_the_whole_journal<D: Viewed>()
    ensures says { (g : Image) (x : Contents) (target : ℕ) (made : Option LevelDesc)
        → length x.journal ≤ x.sb.mem → IsLastMade g x target made
        → LeavesTheSame g made (contents_state x) (λ fresh written next.
        promoted (contents_state x) (fresh ++ levels_behind target x.levels) written next) }
    ensures fill { (v0 mid lay v1 v2 : D) (x y : Contents) (sealed : List Entry)
        (levels : List (Option LevelDesc)) (others : List Extent) (o : OpenPromotion)
        (log turned : Log) (change : Change) → length x.journal ≤ x.sb.mem
        → StandsOpen (D.view v0) x sealed levels others o
        → EndsOpen (D.view v0) (D.view mid) (D.view lay) (D.view v1) (D.view v2)
        x y o log turned change
        → (with_batch y (change ∷ [])).journal ≡ change ∷ [] }
{}
