//! Laws of the budget of slices. Each is the contract of a function that does nothing.

ghost use Rattle.std.specs.Prelude.{◌≡◌, ◌≤◌, ◌<◌, ℕ, ◌+◌, ◌-◌, ◌*◌, ◌^◌, List, length, None, Some};
ghost use Rattle.def_slice.specs.Budget.{changes_left, IsBudget, budget_for, IsOnTime, EndsInTime, LeaveOpen, KeepsToBudget};

/// A journal takes two changes fewer than both regions do: k behind a full region, `mem - 2 - k` are left.
pub fn two_regions_take_two_changes_fewer()
    ensures left { (mem k : ℕ) → changes_left mem (mem + k) ≡ mem - 2 - k }
    ensures one { changes_left 4 5 ≡ 1 }
    ensures none { changes_left 4 6 ≡ 0 }
{}

/// The budget that is computed is the least that is enough, and no other one is.
pub fn the_budget_is_the_least_that_is_enough()
    ensures ok { (mem fill sum : ℕ) → IsBudget mem fill sum (budget_for mem fill sum) }
    ensures one { (mem fill sum b : ℕ) → IsBudget mem fill sum b → b ≡ budget_for mem fill sum }
{}

/// Twice five entries where a region takes four changes: in two slices, in one, or with no change left; and where
/// nothing is merged. Five of them taken and one change left, the promotion is on time with a budget of five, and not
/// with one of four.
pub fn five_entries_have_these_budgets()
    ensures two { budget_for 4 4 5 ≡ 5 }
    ensures one { budget_for 4 5 5 ≡ 10 }
    ensures last { budget_for 4 6 5 ≡ 2 ^ 63 }
    ensures up { budget_for 5 5 5 ≡ 4 }
    ensures none { budget_for 4 4 0 ≡ 1 }
    ensures time { IsOnTime 4 5 5 5 5 }
    ensures late { IsOnTime 4 5 5 4 5 → ⊥ }
{}

/// A promotion that is begun with its budget may be sliced. A slice that leaves an entry leaves room for one change
/// more, and the promotion on time after that change.
pub fn a_slice_leaves_a_promotion_on_time()
    ensures begun { (mem fill sum b : ℕ) → IsBudget mem fill sum b → sum ≤ 2 ^ 24
        → EndsInTime mem fill sum b 0 }
    ensures more { (mem fill sum b taken next : ℕ) → EndsInTime mem fill sum b taken
        → taken + b ≤ next → next < 2 * sum
        → (fill + 1 ≤ 2 * mem - 2) × IsOnTime mem (fill + 1) sum b next }
{}

/// So it ends while the journal has room: fewer slices leave an entry than changes were left, and with none left no
/// slice does.
pub fn a_promotion_ends_in_time()
    ensures room { (mem fill sum b : ℕ) (counts : List ℕ) → IsBudget mem fill sum b → sum ≤ 2 ^ 24
        → fill ≤ 2 * mem - 2 → LeaveOpen sum b 0 counts → fill + length counts ≤ 2 * mem - 2 }
    ensures last { (mem fill sum b taken next : ℕ) → EndsInTime mem fill sum b taken
        → changes_left mem fill ≡ 0 → taken + b ≤ next → 2 * sum ≤ next }
{}

/// A budget of all that both passes have may be given at any fill, and leaves no entry: a promotion then ends in its
/// first slice.
pub fn a_budget_of_all_ends_a_promotion_at_once()
    ensures may { (mem fill sum b taken : ℕ) → 2 * sum ≤ b → EndsInTime mem fill sum b taken }
    ensures last { (sum b taken next : ℕ) → 2 * sum ≤ b → taken + b ≤ next → 2 * sum ≤ next }
{}

/// Of 100 entries in each pass, with a budget of 50 and none of a key more than 3: the first slice takes at least 50 and
/// at most 52, and ends nothing; the next one has the same budget; and the fourth may end it once 148 were taken.
pub fn slices_are_neither_whole_nor_idle()
    ensures whole { KeepsToBudget (record { budget = 50; sum = 100; taken = 0 }) 3 None → ⊥ }
    ensures idle { KeepsToBudget (record { budget = 50; sum = 100; taken = 0 }) 3
        (Some (record { budget = 50; sum = 100; taken = 49 })) → ⊥ }
    ensures some { KeepsToBudget (record { budget = 50; sum = 100; taken = 0 }) 3
        (Some (record { budget = 50; sum = 100; taken = 50 })) }
    ensures ok { KeepsToBudget (record { budget = 50; sum = 100; taken = 0 }) 3
        (Some (record { budget = 50; sum = 100; taken = 52 })) }
    ensures far { KeepsToBudget (record { budget = 50; sum = 100; taken = 0 }) 3
        (Some (record { budget = 50; sum = 100; taken = 53 })) → ⊥ }
    ensures same { KeepsToBudget (record { budget = 50; sum = 100; taken = 0 }) 3
        (Some (record { budget = 100; sum = 100; taken = 50 })) → ⊥ }
    ensures early { KeepsToBudget (record { budget = 50; sum = 100; taken = 147 }) 3 None → ⊥ }
    ensures last { KeepsToBudget (record { budget = 50; sum = 100; taken = 148 }) 3 None }
{}
