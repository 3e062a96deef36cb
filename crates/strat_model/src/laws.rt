//! Examples that the definitions compute, and laws that they have. Each is a call that does nothing, and
//! its clause is what it says.

ghost use Rattle.std.specs.Prelude.{◌≡◌, ◌≢◌, ◌<◌, ◌≤◌, ◌↔◌, ℕ, ◌+◌, List, [], length, take, Some, None, true, false};
ghost use Rattle.strat_base.specs.declared.limits.TheConstants.{CHANGES_MAX, VERSIONS_MAX};
ghost use Rattle.strat_base.specs.Tree.{parent_of};
ghost use Rattle.strat_base.specs.Marks.{is_dropped};
ghost use Rattle.strat_model.specs.Pairs.{Pairs, value_of, set, unset};
ghost use Rattle.strat_model.specs.Request.{Request, Clone};
ghost use Rattle.strat_model.specs.Table.{Table, fresh, parents_of, marks_in};
ghost use Rattle.strat_model.specs.Answer.{accepts, refusal};
ghost use Rattle.strat_model.specs.Step.{step, drop_version, pairs_at, has_row, is_frozen};
ghost use Rattle.strat_model.specs.Kept.{IsMap, IsTable, updated};
ghost use Rattle.strat_model.specs.Run.{Position, Response, Answers, AnswersFault, MayFill, fill_after, IsAfter, EmptiesAtOnce, Exchange, Transcript, tables_of, takes_memory, reaches_disk};
ghost use Rattle.strat_model.specs.Batch.{Continuation, tables_continued};
ghost use Rattle.strat_model.specs.Spelling.{has_lawful_sizes, size_refusal, HasForm, Spells, IsRefusedAs};
ghost use Rattle.strat_model.specs.Stream.{Splits};
ghost use Rattle.strat_model.specs.declared.replies.Refusal.{Refusal};
ghost use Rattle.strat_model.specs.declared.replies.Refusal.TheVariants as why;
ghost use Rattle.strat_model.specs.Examples.{answers, branching, branched, scanning, scanned, growing, grown, filling, filled, paging, paged, staging, staged, chained, pruning, pruned, done};

/// A clone has a map of its own, and its parent takes no more updates.
pub fn clones_have_own_maps()
    ensures ok { answers (fresh 100 10) branching ≡ branched }
{}

/// A scan gives pairs by their keys, without the upper bound, and says whether others follow.
pub fn scans_are_in_order()
    ensures ok { answers (fresh 100 10) scanning ≡ scanned }
{}

/// A version with a child is frozen, and the child is one step deeper.
#[tactic(auto, unfolding(strat_base::specs::Tree::climb))]
pub fn trees_are_told()
    ensures ok { answers (fresh 100 10) growing ≡ grown }
{}

/// A frozen version and too many versions are refused before too many changes.
pub fn limits_are_told_in_order()
    ensures ok { answers (fresh 2 2) filling ≡ filled }
{}

/// A cursor gives each pair of its moment once, whatever the version does meanwhile.
pub fn cursors_keep_their_moment()
    ensures ok { answers (fresh 100 10) paging ≡ paged }
{}

/// Two clones of one version change apart from it and from each other.
pub fn clones_change_apart()
    ensures ok { answers (fresh 100000 100) staging ≡ staged }
{}

/// A drop is refused for an unknown version first, then for version 0, then for one with a living child, then for too many
/// changes. After it the version is unknown, its parent takes updates again, and it still counts.
#[tactic(auto, unfolding(strat_base::specs::Tree::climb))]
pub fn drops_are_told()
    ensures err { ((drop_version (chained 2) 3).answer ≡ refusal why.UnknownVersion)
        × ((drop_version (chained 2) 0).answer ≡ refusal why.Root)
        × ((drop_version (chained 2) 1).answer ≡ refusal why.Frozen)
        × ((drop_version (chained 2) 2).answer ≡ refusal why.ChangeLimit) }
    ensures ok { ((drop_version (chained 9) 2).answer ≡ done)
        × (answers (drop_version (chained 9) 2).table pruning ≡ pruned) }
{}

/// A key that got a value has it, and every other key has what it had.
pub fn puts_change_one_key()
    ensures found { (pairs : Pairs) (key value : List ℕ)
        → value_of (set key value pairs) key ≡ Some value }
    ensures same { (pairs : Pairs) (key value other : List ℕ) → other ≢ key
        → value_of (set key value pairs) other ≡ value_of pairs other }
{}

/// A key that was taken away has no value, and every other key has what it had.
pub fn deletes_change_one_key()
    ensures none { (pairs : Pairs) (key : List ℕ) → IsMap pairs
        → value_of (unset key pairs) key ≡ None }
    ensures same { (pairs : Pairs) (key other : List ℕ) → IsMap pairs → other ≢ key
        → value_of (unset key pairs) other ≡ value_of pairs other }
{}

/// Maps that answer every look-up alike are the same pairs.
pub fn maps_are_their_look_ups()
    ensures ok { (a b : Pairs) → IsMap a → IsMap b
        → ((key : List ℕ) → value_of a key ≡ value_of b key) → a ≡ b }
{}

/// A new table keeps maps, a tree in which all below a dropped version are dropped, and limits, and each dropped version has
/// the empty map; so does the table after any step.
pub fn tables_keep_maps_and_tree()
    ensures ok { (changes_max versions_max : ℕ) → changes_max ≤ CHANGES_MAX → 1 ≤ versions_max
        → versions_max ≤ VERSIONS_MAX → IsTable (fresh changes_max versions_max) }
    ensures kept { (t : Table) (request : Request) → IsTable t → IsTable (step t request).table }
{}

/// The map of a version is changed by its own updates alone, and by none while it has a child that was not dropped.
pub fn versions_change_alone()
    ensures same { (t : Table) (request : Request) (w : ℕ) → w < length t.rows
        → updated request ≢ Some w → pairs_at (step t request).table w ≡ pairs_at t w }
    ensures kept { (t : Table) (request : Request) (w : ℕ) → w < length t.rows
        → is_frozen t w ≡ true → pairs_at (step t request).table w ≡ pairs_at t w }
{}

/// A version that is dropped is unknown, and its map is empty. The tree stays, and so do the maps of all other versions. The
/// parent takes updates again if no other child of it lives. Version 0 is never dropped, and a drop that is refused changes
/// nothing.
pub fn drops_empty_one_map()
    ensures ok { (t : Table) (v : ℕ) → accepts (drop_version t v).answer.reply ≡ true
        → (has_row t v ≡ true) × (has_row (drop_version t v).table v ≡ false)
        × (pairs_at (drop_version t v).table v ≡ []) }
    ensures same { (t : Table) (v w : ℕ) → w ≢ v
        → (has_row (drop_version t v).table w ≡ has_row t w)
        × (pairs_at (drop_version t v).table w ≡ pairs_at t w) }
    ensures kept { (t : Table) (v : ℕ) → parents_of (drop_version t v).table ≡ parents_of t }
    ensures freed { (t : Table) (v p : ℕ) → accepts (drop_version t v).answer.reply ≡ true
        → ((c : ℕ) → parent_of (parents_of t) c ≡ Some p
        → is_dropped (marks_in t) c ≡ false → c ≡ v)
        → is_frozen (drop_version t v).table p ≡ false }
    ensures root { (t : Table) → accepts (drop_version t 0).answer.reply ≡ false }
    ensures err { (t : Table) (v : ℕ) → accepts (drop_version t v).answer.reply ≡ false
        → (drop_version t v).table ≡ t }
{}

/// A clone begins with the map of its parent.
pub fn clones_begin_as_their_parent()
    ensures ok { (t : Table) (v : ℕ) → accepts (step t (Clone v)).answer.reply ≡ true
        → pairs_at (step t (Clone v)).table (length t.rows) ≡ pairs_at t v }
{}

/// Two readings of one stream as frames and a rest are the same reading.
pub fn streams_have_one_reading()
    ensures { (stream : List ℕ) (bodies others : List (List ℕ)) (rest others_rest : List ℕ)
        → Splits stream bodies rest → Splits stream others others_rest
        → (bodies ≡ others) × (rest ≡ others_rest) }
{}

/// A command is refused for its sizes exactly where one of them is unlawful.
pub fn unlawful_sizes_are_refused()
    ensures none { (request : Request)
        → size_refusal request ≡ None ↔ has_lawful_sizes request ≡ true }
    ensures err { (body : List ℕ) (tag : ℕ) (request : Request) (cause : Refusal)
        → HasForm body tag request → size_refusal request ≡ Some cause
        → IsRefusedAs body tag cause }
{}

/// Memory runs out for a command alone that takes some and that the table accepts, and changes nothing. A
/// fault comes for a command alone that reaches the disk and that the table accepts.
pub fn interruptions_have_causes()
    ensures none { (mem : ℕ) (at : Position) (body : List ℕ) (response : Response)
        (after : Position) → Answers mem at body response after
        → response.answer ≡ refusal why.NoMemory
        → (request : Request) × Spells body response.tag request
        × (takes_memory request ≡ true)
        × (accepts (step at.table request).answer.reply ≡ true) × (after ≡ at) }
    ensures cause { (mem : ℕ) (at : Position) (body : List ℕ) (response : Response)
        (done : Position) → AnswersFault mem at body response done
        → (request : Request) × Spells body response.tag request
        × (reaches_disk request ≡ true)
        × (accepts (step at.table request).answer.reply ≡ true)
        × IsAfter mem at request done }
{}

/// Where no more changes are in the journal than one region takes, before a change and after it, it left the fill of a store
/// that empties a full region at once; and a store may do so.
pub fn one_region_leaves_one_fill()
    ensures ok { (mem : ℕ) (at after : Position) (request : Request) → IsAfter mem at request after
        → at.fill ≤ mem → after.fill ≤ mem → EmptiesAtOnce mem at request after }
    ensures room { (mem fill : ℕ) → 2 ≤ mem → fill ≤ mem
        → MayFill mem fill (fill_after mem fill) × (fill_after mem fill ≤ mem) }
{}

/// A run may be continued over nothing, and has its own tables then, as each run has that was not interrupted. A continued run goes
/// through its own tables up to its interruption, and then to that after the whole batch at once.
pub fn continued_runs_begin_with_their_own_tables()
    ensures none { (mem : ℕ) (t : Transcript)
        → (c : Continuation mem t) × (c.more ≡ [])
        × (tables_continued t c.end ≡ tables_of t) }
    ensures same { (t : Transcript) (end : Position)
        → t.interruption ≡ None → tables_continued t end ≡ tables_of t }
    ensures front { (t : Transcript) (end : Position)
        → take (length t.exchanges + 1) (tables_continued t end)
        ≡ take (length t.exchanges + 1) (tables_of t) }
    ensures few { (t : Transcript) (end : Position)
        → length (tables_continued t end) ≤ length t.exchanges + 2 }
{}
