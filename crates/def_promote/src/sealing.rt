//! Laws of changes that come while a promotion runs. Each is the contract of a function that does
//! nothing.

ghost use Rattle.std.specs.Prelude.{◌≡◌, ◌≤◌, ℕ, ◌+◌, List, ◌++◌, length, IsTrue};
ghost use Rattle.strat_base.specs.Change.{Change};
ghost use Rattle.strat_base.specs.Entries.{Entry};
ghost use Rattle.def_split.specs.Plan.{Plan};
ghost use Rattle.def_promote.specs.Promoted.{SaysTheSame, promoted, PromotesGroups, levels_of_groups};
ghost use Rattle.def_promote.specs.Replaced.{Replaces};
ghost use Rattle.def_promote.specs.Sealed.{sealed_at, grown_by};
ghost use Rattle.def_state.specs.Level.{Level};
ghost use Rattle.def_state.specs.Sound.{are_accepted, journal_max, IsOrdered, IsSound};
ghost use Rattle.def_state.specs.State.{State, versions_of, marks_of, changes_of};

/// A state that keeps all rules but j kept them before the last changes in its journal. Rule j may have been broken then,
/// since a drop hides a breach of it.
pub fn a_state_was_in_order_before_its_last_changes()
    ensures { (s : State) (sealed rest : List Change) → IsOrdered s → s.journal ≡ sealed ++ rest
        → IsOrdered (sealed_at s sealed) }
{}

/// Two states that say the same and keep all rules but j still do so after the same accepted changes.
pub fn the_same_changes_keep_states_the_same()
    ensures { (rest : List Change) (a b : State) → IsOrdered a → IsOrdered b → SaysTheSame a b
        → IsTrue
        (are_accepted a.changes_max a.versions_max (versions_of a) (marks_of a) (changes_of a) rest)
        → length a.journal + length rest ≤ journal_max a.mem
        → length b.journal + length rest ≤ journal_max b.mem
        → IsOrdered (grown_by b rest) × SaysTheSame (grown_by a rest) (grown_by b rest) }
{}

/// A promotion of the first changes of a journal, with the other changes put behind it, leaves a
/// sound state that says the same.
pub fn a_promotion_lets_later_changes_follow()
    ensures says { (s : State) (sealed rest : List Change) (j : ℕ) (taken kept fresh : List Level)
        (entries over : List Entry) (written next_array : ℕ) → IsSound s
        → s.journal ≡ sealed ++ rest
        → Replaces (sealed_at s sealed) j taken kept fresh entries over
        → SaysTheSame s
        (grown_by (promoted (sealed_at s sealed) (fresh ++ kept) written next_array) rest) }
    ensures sound { (s : State) (sealed rest : List Change) (j : ℕ) (taken kept fresh : List Level)
        (entries over : List Entry) (written next_array : ℕ) → IsSound s
        → s.journal ≡ sealed ++ rest
        → Replaces (sealed_at s sealed) j taken kept fresh entries over
        → IsSound
        (grown_by (promoted (sealed_at s sealed) (fresh ++ kept) written next_array) rest) }
    ensures groups { (s : State) (sealed rest : List Change) (j : ℕ) (taken kept : List Level)
        (groups : List (List Entry)) (own seen : ℕ → ℕ) (plan : Plan)
        (first written next_array : ℕ) (final : State) → IsSound s → s.journal ≡ sealed ++ rest
        → PromotesGroups (sealed_at s sealed) j taken kept groups own seen plan
        → final
        ≡ grown_by
        (promoted (sealed_at s sealed)
        (levels_of_groups (sealed_at s sealed) j kept groups plan first)
        written next_array)
        rest
        → SaysTheSame s final × IsSound final }
{}

/// Changes that a sound state accepts one after the other, and that its journal has room for, leave it sound.
pub fn accepted_changes_keep_a_state_sound()
    ensures { (rest : List Change) (s : State) → IsSound s
        → IsTrue
        (are_accepted s.changes_max s.versions_max (versions_of s) (marks_of s) (changes_of s) rest)
        → length s.journal + length rest ≤ journal_max s.mem → IsSound (grown_by s rest) }
{}
