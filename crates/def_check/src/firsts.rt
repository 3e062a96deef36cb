//! Laws of the order of breaches, and of children below a horizon. Each is the contract of a function that does nothing.

ghost use Rattle.std.specs.List.{flat_map, slice_get};
ghost use Rattle.std.specs.Option.{option_or, option_map_or};
ghost use Rattle.std.specs.Prelude.{◌≡◌, ◌≤◌, nat_lt, ℕ, false, List, [], ◌∷◌, ◌++◌, length};
ghost use Rattle.def_state.specs.Breach.{Breach, breaches};
ghost use Rattle.def_state.specs.Level.{Level};
ghost use Rattle.def_state.specs.Sound.{has_child_below};
ghost use Rattle.def_state.specs.State.{State, versions_of};
ghost use Rattle.def_check.specs.Firsts.{by_rule, first_in, first_child};

/// The first breach of a state is the first of the first rule that has one. It may be kept rule by rule while levels are gone
/// through.
pub fn the_first_breach_is_kept_rule_by_rule()
    ensures first { (s : State) → slice_get (breaches s) 0 ≡ first_in (by_rule s) }
    ensures more { (found : Level → List Breach) (levels : List Level) (level : Level)
        → slice_get (flat_map found (levels ++ level ∷ [])) 0
        ≡ option_or (slice_get (flat_map found levels) 0) (slice_get (found level) 0) }
{}

/// A version has a living child below a horizon just where the least of them is below it.
pub fn the_first_child_tells_of_children_below()
    ensures { (s : State) (h v : ℕ) → h ≤ length (versions_of s)
        → has_child_below s h v ≡ option_map_or (λ c. nat_lt c h) (first_child s v) false }
{}
