//! The laws of promotion. Each is the contract of a function that does nothing.

ghost use Rattle.std.specs.List.{list_all, range_with_len};
ghost use Rattle.std.specs.Prelude.{◌≡◌, ℕ, suc, ◌+◌, ◌*◌, ◌^◌, ◌<◌, ◌≤◌, List, ◌++◌, length, sum_by, nat_le, IsTrue};
ghost use Rattle.strat_base.specs.declared.limits.TheConstants.{LEVELS};
ghost use Rattle.strat_base.specs.Entries.{Entry};
ghost use Rattle.def_split.specs.Groups.{grouped_entries, SplitsGroups};
ghost use Rattle.def_split.specs.Plan.{Plan, horizon_of};
ghost use Rattle.def_promote.specs.Merging.{runs_taken, Merges};
ghost use Rattle.def_promote.specs.Paid.{entries_written, leads_at, IsLeastTarget};
ghost use Rattle.def_promote.specs.Promoted.{SaysTheSame, levels_to, levels_behind, promoted, Takeable, Promotes, fresh_after, levels_after, PromotesGroups, fresh_of_groups, levels_of_groups};
ghost use Rattle.def_promote.specs.Purge.{entries_over, groups_over};
ghost use Rattle.def_promote.specs.Replaced.{Replaces};
ghost use Rattle.def_state.specs.Level.{Level, level_leads};
ghost use Rattle.def_state.specs.Reading.{level_zero};
ghost use Rattle.def_state.specs.Sound.{IsOrdered, IsSound};
ghost use Rattle.def_state.specs.State.{State, versions_of, updates_of, changes_of, IsPaid};

/// A state whose journal and shallow levels are replaced by at most one level, wherever that comes
/// from, says the same as before. If it was sound, it stays so; if it kept all rules but j, too.
pub fn replaced_levels_say_the_same()
    ensures says { (s : State) (j : ℕ) (taken kept fresh : List Level) (entries over : List Entry)
        (written next_array : ℕ) → IsOrdered s → Replaces s j taken kept fresh entries over
        → SaysTheSame s (promoted s (fresh ++ kept) written next_array) }
    ensures ordered { (s : State) (j : ℕ) (taken kept fresh : List Level)
        (entries over : List Entry) (written next_array : ℕ) → IsOrdered s
        → Replaces s j taken kept fresh entries over
        → IsOrdered (promoted s (fresh ++ kept) written next_array) }
    ensures sound { (s : State) (j : ℕ) (taken kept fresh : List Level) (entries over : List Entry)
        (written next_array : ℕ) → IsSound s → Replaces s j taken kept fresh entries over
        → IsSound (promoted s (fresh ++ kept) written next_array) }
{}

/// A promotion leaves a state that says the same, and a sound one sound.
pub fn a_promotion_says_the_same()
    ensures replaces { (s : State) (j : ℕ) (taken kept : List Level) (entries : List Entry)
        (plan : Plan) (first : ℕ) → IsOrdered s → Promotes s j taken kept entries plan
        → Replaces s j taken kept (fresh_after s j kept entries plan first) entries
        (entries_over (versions_of s) kept entries) }
    ensures says { (s : State) (j : ℕ) (taken kept : List Level) (entries : List Entry)
        (plan : Plan) (first written next_array : ℕ) → IsOrdered s
        → Promotes s j taken kept entries plan
        → SaysTheSame s
        (promoted s (levels_after s j kept entries plan first) written next_array) }
    ensures sound { (s : State) (j : ℕ) (taken kept : List Level) (entries : List Entry)
        (plan : Plan) (first written next_array : ℕ) → IsSound s
        → Promotes s j taken kept entries plan
        → IsSound (promoted s (levels_after s j kept entries plan first) written next_array) }
{}

/// The same of a promotion that sees one group at a time, and splits versions by their numbers.
pub fn a_promotion_of_groups_says_the_same()
    ensures replaces { (s : State) (j : ℕ) (taken kept : List Level) (groups : List (List Entry))
        (own seen : ℕ → ℕ) (plan : Plan) (first : ℕ) → IsOrdered s
        → PromotesGroups s j taken kept groups own seen plan
        → Replaces s j taken kept (fresh_of_groups s j kept groups plan first)
        (grouped_entries groups) (entries_over (versions_of s) kept (grouped_entries groups)) }
    ensures says { (s : State) (j : ℕ) (taken kept : List Level) (groups : List (List Entry))
        (own seen : ℕ → ℕ) (plan : Plan) (first written next_array : ℕ) → IsOrdered s
        → PromotesGroups s j taken kept groups own seen plan
        → SaysTheSame s
        (promoted s (levels_of_groups s j kept groups plan first) written next_array) }
    ensures sound { (s : State) (j : ℕ) (taken kept : List Level) (groups : List (List Entry))
        (own seen : ℕ → ℕ) (plan : Plan) (first written next_array : ℕ) → IsSound s
        → PromotesGroups s j taken kept groups own seen plan
        → IsSound (promoted s (levels_of_groups s j kept groups plan first) written next_array) }
    ensures same { (s : State) (j : ℕ) (taken kept : List Level) (groups : List (List Entry))
        (own seen : ℕ → ℕ) (plan : Plan) (first : ℕ) → IsOrdered s
        → PromotesGroups s j taken kept groups own seen plan
        → levels_of_groups s j kept groups plan first
        ≡ levels_after s j kept (grouped_entries groups) plan first }
{}

/// Groups that were merged from the runs of a state are promoted, once their versions were split.
pub fn merged_groups_are_promoted()
    ensures { (s : State) (j : ℕ) (taken kept : List Level) (groups : List (List Entry))
        (own seen : ℕ → ℕ) (plan : Plan) → Takeable s j taken kept
        → Merges (runs_taken s taken) groups → horizon_of plan ≡ length (versions_of s)
        → SplitsGroups (versions_of s) (groups_over (versions_of s) kept groups) own seen plan
        → PromotesGroups s j taken kept groups own seen plan }
{}

/// The levels of a state down to a number may be taken where the level of that number has room for
/// them. None of them is deeper.
pub fn levels_with_room_may_be_taken()
    ensures takes { (s : State) (j : ℕ) → IsOrdered s → 1 ≤ j → j ≤ LEVELS
        → length (level_zero s)
        + sum_by (λ level. length (level_leads level)) (levels_to j s.levels) ≤ s.mem * 2 ^ j
        → Takeable s j (levels_to j s.levels) (levels_behind j s.levels) }
    ensures shallow { (j : ℕ) (levels : List Level)
        → IsTrue (list_all (λ level. nat_le level.number j) (levels_to j levels)) }
{}

/// The least number with room for the leads of all levels down to it, level 0 among them, is a
/// promotion's target; where it is 1, once the journal is full.
pub fn the_least_number_with_room_is_the_target()
    ensures sum { (s : State) (j : ℕ) → IsOrdered s
        → sum_by (leads_at s) (range_with_len 0 (suc j))
        ≡ length (level_zero s)
        + sum_by (λ level. length (level_leads level)) (levels_to j s.levels) }
    ensures target { (s : State) (j : ℕ) → IsOrdered s → 1 ≤ j → j ≤ LEVELS
        → sum_by (leads_at s) (range_with_len 0 (suc j)) ≤ s.mem * 2 ^ j
        → ((i : ℕ) → 1 ≤ i → i < j
        → s.mem * 2 ^ i < sum_by (leads_at s) (range_with_len 0 (suc i)))
        → (j ≡ 1 → s.mem ≤ length s.journal)
        → Takeable s j (levels_to j s.levels) (levels_behind j s.levels) × IsLeastTarget s j }
{}

/// A promotion of no deeper levels into the first level with room leaves a paid state paid, with the
/// entries of the new level as written.
pub fn a_promotion_is_paid_for()
    ensures replaced { (s : State) (j : ℕ) (taken kept fresh : List Level)
        (entries over : List Entry) (next_array : ℕ) → IsOrdered s → IsPaid s → 0 < s.mem
        → s.updates ≤ s.changes → Replaces s j taken kept fresh entries over
        → IsTrue (list_all (λ level. nat_le level.number j) taken) → IsLeastTarget s j
        → IsPaid (promoted s (fresh ++ kept) (s.written + entries_written fresh) next_array) }
    ensures promoted { (s : State) (j : ℕ) (taken kept : List Level) (entries : List Entry)
        (plan : Plan) (first next_array : ℕ) → IsOrdered s → IsPaid s → 0 < s.mem
        → s.updates ≤ s.changes → Promotes s j taken kept entries plan
        → IsTrue (list_all (λ level. nat_le level.number j) taken) → IsLeastTarget s j
        → IsPaid (promoted s
        (levels_after s j kept entries plan first)
        (s.written + entries_written (fresh_after s j kept entries plan first))
        next_array) }
    ensures groups { (s : State) (j : ℕ) (taken kept : List Level) (groups : List (List Entry))
        (own seen : ℕ → ℕ) (plan : Plan) (first next_array : ℕ) → IsOrdered s → IsPaid s
        → 0 < s.mem → s.updates ≤ s.changes
        → PromotesGroups s j taken kept groups own seen plan
        → IsTrue (list_all (λ level. nat_le level.number j) taken) → IsLeastTarget s j
        → IsPaid (promoted s
        (levels_of_groups s j kept groups plan first)
        (s.written + entries_written (fresh_of_groups s j kept groups plan first))
        next_array) }
    ensures updates { (s : State) → s.updates ≤ s.changes → updates_of s ≤ changes_of s }
{}
