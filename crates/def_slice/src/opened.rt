//! Laws of a promotion that is open over contents. Each is the contract of a function that does nothing.

ghost use Rattle.std.specs.List.{filter_map, sum};
ghost use Rattle.std.specs.Prelude.{◌≡◌, ◌≤◌, ◌<◌, ℕ, ◌+◌, ◌-◌, ◌*◌, ◌^◌, List, [], ◌∷◌, ◌++◌, length, Option, None, Some};
ghost use Rattle.strat_array.specs.Taking.{AreUsed};
ghost use Rattle.strat_base.specs.Change.{Change};
ghost use Rattle.strat_base.specs.Entries.{Entry};
ghost use Rattle.strat_base.specs.declared.descriptors.Extent.{Extent};
ghost use Rattle.strat_base.specs.declared.descriptors.LevelDesc.{LevelDesc};
ghost use Rattle.def_crash.specs.Blocks.{TearsBlocks};
ghost use Rattle.def_crash.specs.Image.{Image};
ghost use Rattle.def_crash.specs.Moments.{Exposes};
ghost use Rattle.def_crash.specs.Trail.{Trail};
ghost use Rattle.strat_extent.specs.Blocks.{SpaceView, is_free};
ghost use Rattle.def_bytes.specs.Arrays.{blocks_of};
ghost use Rattle.strat_journal.specs.Log.{Log};
ghost use Rattle.strat_level.specs.Levels.{level_numbered};
ghost use Rattle.strat_level.specs.Memtable.{ItemList, ListStands};
ghost use Rattle.strat_level.specs.Target.{leads_down_to};
ghost use Rattle.strat_promote.specs.Closing.{AreAllUsed};
ghost use Rattle.strat_promote.specs.Job.{Job, arrays_to, blocks_listed};
ghost use Rattle.strat_promote.specs.Promotions.{IsBegun, IsOpen, IsFed, IsItsJob, HasBegun, IsSliced, SamePromotion, ReadsFrom, extents_taken, writers_of, entries_taken, leads_listed, target_of};
ghost use Rattle.strat_promote.specs.Spaces.{TakesMore};
ghost use Rattle.strat_promote.specs.StateInputs.{IsBegunOver};
ghost use Rattle.strat_promote.specs.Steps.{Inputs};
ghost use Rattle.strat_promote.specs.declared.promotion.Progress.TheVariants as progress;
ghost use Rattle.strat_promote.specs.declared.promotion.Promotion.{Promotion};
ghost use Rattle.def_meaning.specs.StateTable.{table_of};
ghost use Rattle.def_slice.specs.Budget.{IsBudget, KeepsToBudget, budget_for};
ghost use Rattle.def_slice.specs.Opened.{KeepsBehind, AreLent, IsBegunOf, IsMostOfKey, MayRead, OpenPromotion, MayBeSliced, IsOpenOver, StandsOpen, LeavesEntry, StepsOpen, AreNumbersOf, job_open, opened_with, sliced_to, slice_numbers};
ghost use Rattle.def_publish.specs.Appending.{with_batch};
ghost use Rattle.def_publish.specs.Contents.{Contents, contents_state, sealed_state};
ghost use Rattle.def_publish.specs.Occupied.{IsSpaceOf};
ghost use Rattle.def_publish.specs.Standing.{LiesIn, ReadsAs, ShowsTable, LeavesContent, ContentsStand};
ghost use Rattle.def_state.specs.Setting.{set_all};
ghost use Rattle.def_state.specs.Sound.{IsSound, Takes};
ghost use Rattle.def_state.specs.State.{versions_of, journal_updates};

use def_crash::laws::Viewed;

/// A promotion that was begun of what a full region sealed is open, with the budget for the fill, or with one of all
/// that both passes have. Its numbers are those of the promotion that a change begins there.
pub fn a_begun_promotion_is_open()
    ensures begun { (x : Contents) (sealed : List Entry) (levels : List (Option LevelDesc))
        (zero : ItemList) (p : Promotion) → x.sb.mem ≤ length x.journal
        → sealed ≡ set_all (journal_updates (sealed_state x))
        → filter_map (λ level. level) levels ≡ x.chained.manifest.levels
        → ((n : ℕ) (level : LevelDesc) → level_numbered levels n ≡ Some level → level.number ≡ n)
        → length zero.items ≡ length sealed
        → IsBegun zero levels x.sb.mem (length (versions_of (sealed_state x)))
        x.chained.manifest.next_array p
        → sum (leads_listed zero levels) ≤ 2 ^ 24 → IsBegunOf x sealed levels p }
    ensures ok { (f : Image) (x : Contents) (sealed : List Entry)
        (levels : List (Option LevelDesc)) (others : List Extent) (inputs : Inputs) (p : Promotion)
        (space : SpaceView) (n : ℕ) → ReadsAs f x → IsSound (contents_state x)
        → IsBegunOf x sealed levels p
        → MayRead sealed levels (length (versions_of (sealed_state x)))
        x.chained.manifest.next_array → AreLent sealed levels (sealed_state x) inputs
        → IsSpaceOf space x others → IsBudget x.sb.mem (length x.journal)
        (leads_down_to (leads_listed inputs.zero levels) (target_of p)) n
        → IsOpenOver f x (length x.journal) sealed levels others
        (opened_with (leads_listed inputs.zero levels) p space n) }
    ensures whole { (f : Image) (x : Contents) (sealed : List Entry)
        (levels : List (Option LevelDesc)) (others : List Extent) (inputs : Inputs) (p : Promotion)
        (space : SpaceView) (n : ℕ) → ReadsAs f x → IsSound (contents_state x)
        → IsBegunOf x sealed levels p
        → MayRead sealed levels (length (versions_of (sealed_state x)))
        x.chained.manifest.next_array → AreLent sealed levels (sealed_state x) inputs
        → IsSpaceOf space x others → 2 ^ 25 ≤ n
        → IsOpenOver f x (length x.journal) sealed levels others
        (opened_with (leads_listed inputs.zero levels) p space n) }
    ensures numbers { (zero : ItemList) (levels : List (Option LevelDesc))
        (mem versions id fill : ℕ) (p : Promotion) (space : SpaceView)
        → IsBegun zero levels mem versions id p
        → AreNumbersOf mem fill (leads_listed zero levels) None
        (slice_numbers (opened_with (leads_listed zero levels) p space
        (budget_for mem fill (leads_down_to (leads_listed zero levels) (target_of p))))) }
{}

/// What is lent to an open promotion is what it was begun with, so its job is that of what was sealed.
pub fn an_open_promotion_does_its_job()
    ensures over { (f : Image) (x : Contents) (sealed : List Entry)
        (levels : List (Option LevelDesc)) (was : Promotion) (inputs : Inputs) → LiesIn f x
        → IsBegunOf x sealed levels was → AreLent sealed levels (sealed_state x) inputs
        → IsBegunOver f (sealed_state x) inputs was }
    ensures job { (f : Image) (x : Contents) (fill : ℕ) (sealed : List Entry)
        (levels : List (Option LevelDesc)) (others : List Extent) (o : OpenPromotion)
        (inputs : Inputs) → ReadsAs f x → IsSound (contents_state x)
        → (p : IsOpenOver f x fill sealed levels others o)
        → AreLent sealed levels (sealed_state x) inputs
        → IsItsJob f o.promotion inputs (job_open x levels p.going.was) }
{}

/// It meets what `slice` asks for, on any disk and however many versions came since, and reads blocks of its arrays
/// alone.
pub fn an_open_promotion_may_be_sliced()
    ensures ok { (x : Contents) (sealed : List Entry) (levels : List (Option LevelDesc))
        (o : OpenPromotion) (inputs : Inputs) → MayBeSliced x sealed levels o
        → AreLent sealed levels (sealed_state x) inputs → ListStands inputs.pool inputs.zero
        → length (versions_of (sealed_state x)) ≤ length inputs.parents
        → IsOpen o.promotion × IsFed o.promotion inputs × (1 ≤ o.budget)
        × AreAllUsed o.space (writers_of o.promotion) }
    ensures reads { (x : Contents) (sealed : List Entry) (levels : List (Option LevelDesc))
        (o : OpenPromotion) (inputs : Inputs) → MayBeSliced x sealed levels o
        → AreLent sealed levels (sealed_state x) inputs
        → ReadsFrom (arrays_to inputs.levels (target_of o.promotion)) o.promotion }
{}

/// On any disk it may go on: once it was begun, after a slice that left an entry, and while changes come.
pub fn an_open_promotion_may_go_on<D: Viewed>()
    ensures begun { (x : Contents) (sealed : List Entry) (levels : List (Option LevelDesc))
        (zero : ItemList) (p : Promotion) (space : SpaceView) (n sum : ℕ)
        → length zero.items ≡ length sealed → IsBegunOf x sealed levels p
        → MayRead sealed levels (length (versions_of (sealed_state x)))
        x.chained.manifest.next_array → 1 ≤ n → MayBeSliced x sealed levels
        (record { promotion = p; space = space; budget = n; sum = sum }) }
    ensures more { (old new : D) (x : Contents) (sealed : List Entry)
        (levels : List (Option LevelDesc)) (o : OpenPromotion) (q : Promotion) (space : SpaceView)
        (m : MayBeSliced x sealed levels o)
        → LeavesEntry (D.view old) (D.view new) (job_open x levels m.was) o q space
        → MayBeSliced x sealed levels (sliced_to o q space) }
    ensures change { (x : Contents) (batch : List Change) (sealed : List Entry)
        (levels : List (Option LevelDesc)) (o : OpenPromotion) → MayBeSliced x sealed levels o
        → MayBeSliced (with_batch x batch) sealed levels o }
{}

/// The blocks of the arrays that it reads, those that it has taken and those of the others are used in its space.
pub fn the_blocks_of_an_open_promotion_are_used()
    ensures read { (f : Image) (x : Contents) (fill : ℕ) (sealed : List Entry)
        (levels : List (Option LevelDesc)) (others : List Extent) (o : OpenPromotion)
        → (p : IsOpenOver f x fill sealed levels others o)
        → AreUsed o.space (blocks_listed (job_open x levels p.going.was).arrays) }
    ensures taken { (f : Image) (x : Contents) (fill : ℕ) (sealed : List Entry)
        (levels : List (Option LevelDesc)) (others : List Extent) (o : OpenPromotion)
        → IsOpenOver f x fill sealed levels others o
        → AreUsed o.space (blocks_of (extents_taken o.promotion)) }
    ensures others { (f : Image) (x : Contents) (fill : ℕ) (sealed : List Entry)
        (levels : List (Option LevelDesc)) (others : List Extent) (o : OpenPromotion)
        → IsOpenOver f x fill sealed levels others o → AreUsed o.space (blocks_of others) }
{}

/// Where `slice` answers More over what is lent to an open promotion, on a disk whose content reads as the contents,
/// it left an entry: each premise is one of its clauses, and nothing else is asked.
pub fn a_slice_leaves_an_entry_by_its_clauses<D: Viewed>()
    ensures { (old new : D) (f : Image) (x : Contents) (fill : ℕ) (sealed : List Entry)
        (levels : List (Option LevelDesc)) (others : List Extent) (o : OpenPromotion)
        (q : Promotion) (space : SpaceView) (inputs : Inputs) → Exposes (D.view old) f
        → ReadsAs f x → IsSound (contents_state x)
        → (p : IsOpenOver f x fill sealed levels others o)
        → AreLent sealed levels (sealed_state x) inputs
        → IsOpen q × (entries_taken o.promotion + o.budget ≤ entries_taken q)
        → ((g h : Image) (job : Job) → Exposes (D.view old) g → Exposes (D.view new) h
        → IsItsJob g o.promotion inputs job → AreUsed o.space (blocks_listed job.arrays)
        → HasBegun g job o.promotion
        → IsSliced g h job (entries_taken o.promotion + o.budget) q progress.More)
        → AreAllUsed space (writers_of q)
        → TakesMore o.space space (extents_taken o.promotion) (extents_taken q)
        → TearsBlocks (is_free o.space) (D.view old) (D.view new) × SamePromotion o.promotion q
        → (ReadsFrom (arrays_to inputs.levels (target_of o.promotion)) o.promotion
        → ReadsFrom (arrays_to inputs.levels (target_of o.promotion)) q)
        → LeavesEntry (D.view old) (D.view new) (job_open x levels p.going.was) o q space }
{}

/// A slice writes free blocks alone, so it is a trail of one table, wherever it ends; and the contents stand as they
/// did.
pub fn a_slice_is_a_trail_of_one_table<D: Viewed>()
    ensures trail { (old new : D) (f : Image) (x : Contents) (fill : ℕ) (sealed : List Entry)
        (levels : List (Option LevelDesc)) (others : List Extent) (o : OpenPromotion)
        → ContentsStand (D.view old) x → IsOpenOver f x fill sealed levels others o
        → TearsBlocks (is_free o.space) (D.view old) (D.view new)
        → Trail ShowsTable (D.view new) (D.view old).moment (table_of (contents_state x) ∷ []) 0 }
    ensures stands { (old new : D) (f : Image) (x : Contents) (fill : ℕ) (sealed : List Entry)
        (levels : List (Option LevelDesc)) (others : List Extent) (o : OpenPromotion)
        → ContentsStand (D.view old) x → IsOpenOver f x fill sealed levels others o
        → TearsBlocks (is_free o.space) (D.view old) (D.view new) → LeavesContent (D.view new)
        → ContentsStand (D.view new) x }
{}

/// A slice that leaves an entry leaves the promotion open, on time for one change more, for which the journal has
/// room. It keeps to its budget.
pub fn a_slice_leaves_a_promotion_open<D: Viewed>()
    ensures ok { (old new : D) (f g : Image) (x : Contents) (sealed : List Entry)
        (levels : List (Option LevelDesc)) (others : List Extent) (o : OpenPromotion)
        (q : Promotion) (space : SpaceView) → Exposes (D.view old) f → Exposes (D.view new) g
        → (p : IsOpenOver f x (length x.journal) sealed levels others o)
        → LeavesEntry (D.view old) (D.view new) (job_open x levels p.going.was) o q space
        → (length x.journal + 1 ≤ 2 * x.sb.mem - 2)
        × IsOpenOver g x (length x.journal + 1) sealed levels others (sliced_to o q space) }
    ensures budget { (old new : D) (f g : Image) (job : Job) (o : OpenPromotion) (q : Promotion)
        (space : SpaceView) (most : ℕ) → Exposes (D.view old) f → Exposes (D.view new) g
        → LeavesEntry (D.view old) (D.view new) job o q space → IsMostOfKey f job most
        → KeepsToBudget (slice_numbers o) most (Some (slice_numbers (sliced_to o q space))) }
{}

/// The promotion stays open while a change is appended, which writes in front of all blocks that it reads and has
/// taken.
pub fn a_change_leaves_a_promotion_open()
    ensures { (f g : Image) (x : Contents) (sealed : List Entry) (levels : List (Option LevelDesc))
        (others : List Extent) (o : OpenPromotion) (change : Change) → ReadsAs f x
        → IsOpenOver f x (length x.journal + 1) sealed levels others o
        → KeepsBehind x.sb.mem f g
        → IsOpenOver g (with_batch x (change ∷ []))
        (length (with_batch x (change ∷ [])).journal) sealed levels others o }
{}

/// A change over an open promotion is one slice, which leaves an entry, and its record: the journal has room for it,
/// it is a trail of two tables, and after it the promotion is open over the contents with the change.
pub fn a_change_over_an_open_promotion_is_a_trail_of_two_tables<D: Viewed>()
    ensures takes { (v0 v1 v2 : D) (x : Contents) (sealed : List Entry)
        (levels : List (Option LevelDesc)) (others : List Extent) (o : OpenPromotion)
        (q : Promotion) (space : SpaceView) (log : Log) (change : Change)
        → (s : StandsOpen (D.view v0) x sealed levels others o)
        → StepsOpen (D.view v0) (D.view v1) (D.view v2) x (job_open x levels s.open_over.going.was)
        o q space log change
        → Takes (contents_state x) change }
    ensures trail { (v0 v1 v2 : D) (x : Contents) (sealed : List Entry)
        (levels : List (Option LevelDesc)) (others : List Extent) (o : OpenPromotion)
        (q : Promotion) (space : SpaceView) (log : Log) (change : Change)
        → (s : StandsOpen (D.view v0) x sealed levels others o)
        → StepsOpen (D.view v0) (D.view v1) (D.view v2) x (job_open x levels s.open_over.going.was)
        o q space log change
        → Trail ShowsTable (D.view v2) (D.view v0).moment (table_of (contents_state x)
        ∷ table_of (contents_state (with_batch x (change ∷ []))) ∷ []) 1 }
    ensures stands { (v0 v1 v2 : D) (x : Contents) (sealed : List Entry)
        (levels : List (Option LevelDesc)) (others : List Extent) (o : OpenPromotion)
        (q : Promotion) (space : SpaceView) (log : Log) (change : Change)
        → (s : StandsOpen (D.view v0) x sealed levels others o)
        → StepsOpen (D.view v0) (D.view v1) (D.view v2) x (job_open x levels s.open_over.going.was)
        o q space log change
        → StandsOpen (D.view v2) (with_batch x (change ∷ [])) sealed levels others
        (sliced_to o q space) }
{}
