//! Laws that tie the states of a store to the tables that they mean. Each is a call that does
//! nothing, and its clauses are what it says.

ghost use Rattle.std.specs.Prelude.{◌≡◌, ℕ, ◌<◌, List, length, fold, option_and_then, IsTrue};
ghost use Rattle.strat_base.specs.Change.{Change};
ghost use Rattle.def_state.specs.Reading.{read_at};
ghost use Rattle.def_state.specs.Sound.{accepts_change, IsSound, Takes};
ghost use Rattle.def_state.specs.State.{State, fresh_state, versions_of, is_living, appended};
ghost use Rattle.strat_model.specs.Answer.{accepts};
ghost use Rattle.strat_model.specs.Examples.{staging};
ghost use Rattle.def_meaning.specs.Settings.{settings};
ghost use Rattle.strat_model.specs.Pairs.{value_of};
ghost use Rattle.def_meaning.specs.StateTable.{table_of, request_for, answer_for};
ghost use Rattle.strat_model.specs.Step.{step, pairs_at};
ghost use Rattle.strat_model.specs.Table.{Table, fresh, bare};

/// A new store means a new table.
pub fn new_stores_mean_new_tables()
    ensures ok { (mem changes_max versions_max : ℕ)
        → table_of (fresh_state mem changes_max versions_max) ≡ fresh changes_max versions_max }
{}

/// A table takes a change exactly where the state that it comes from accepts it. Where the journal
/// has room the change goes there, and the table after it is that of the state after it, whatever
/// cursors stand beside it.
pub fn changes_in_the_journal_are_steps()
    ensures accepted { (s : State) (c : Change)
        → accepts (step (table_of s) (request_for c)).answer.reply ≡ accepts_change s c }
    ensures kept { (s : State) (c : Change) → Takes s c → IsSound (appended s c) }
    ensures table { (s : State) (c : Change) → Takes s c
        → (step (table_of s) (request_for c)).table ≡ table_of (appended s c) }
    ensures answer { (s : State) (c : Change) → Takes s c
        → (step (table_of s) (request_for c)).answer ≡ answer_for s c }
    ensures bare { (t : Table) (s : State) (c : Change) → Takes s c → bare t ≡ table_of s
        → bare (step t (request_for c)).table ≡ table_of (appended s c) }
    ensures same { (t : Table) (s : State) (c : Change) → Takes s c → bare t ≡ table_of s
        → (step t (request_for c)).answer ≡ answer_for s c }
{}

/// Reading a sound state level by level finds what its table has.
pub fn reading_finds_the_tables_value()
    ensures ok { (s : State) (v : ℕ) (key : List ℕ) → IsSound s → v < length (versions_of s)
        → IsTrue (is_living s v) → value_of (pairs_at (table_of s) v) key
        ≡ option_and_then (λ e. e.value) (read_at s v key) }
{}

/// Two settings, two clones of them, and a change in each: the state is sound, and it means the
/// table after the commands.
#[tactic(auto, unfolding(strat_base::specs::Tree::climb), using(def_state::proofs::BreachLemmas::sound_from_none))]
pub fn settings_mean_their_table()
    ensures sound { IsSound settings }
    ensures table { fold (λ t request. (step t request).table) (fresh 100000 100) staging
        ≡ table_of settings }
{}
