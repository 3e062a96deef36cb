//! Counts of faults, moments that passed, and trails of tables. Each is the contract of a function that does nothing.

ghost use Rattle.std.specs.Prelude.{◌≡◌, ◌≤◌, ℕ, [], ◌∷◌, None};
ghost use Rattle.def_crash.specs.Faults.{Rose};
ghost use Rattle.def_crash.specs.Image.{Image};
ghost use Rattle.def_crash.specs.Moments.{Passes};
ghost use Rattle.def_crash.specs.Trail.{Trail};

use def_crash::laws::Viewed;

/// A count rose where it is greater, and at its type's end, where it stands still.
pub fn counts_rise_by_one_at_least()
    ensures same { ¬ Rose 3 3 }
    ensures more { Rose 3 4 }
    ensures end { Rose 18446744073709551615 18446744073709551615 }
{}

/// What a crash at a moment that has passed might have left stays so: nothing comes to it, and nothing goes.
pub fn moments_that_passed_stay<D: Viewed>()
    ensures kept { (old new : D) (m : ℕ) (c : Image) → Passes (D.view old) (D.view new)
        → m ≤ (D.view old).moment → (D.view old).images_at m c → (D.view new).images_at m c }
    ensures past { (old new : D) (m : ℕ) (c : Image) → Passes (D.view old) (D.view new)
        → m ≤ (D.view old).moment → (D.view new).images_at m c → (D.view old).images_at m c }
{}

/// An image of the first table that a crash may leave now is past, where a trail is at its second table.
pub fn a_trail_has_left_what_lies_before_its_last_mark()
    ensures { ¬ Trail (λ c t. c 0 ≡ t)
        (record { content = None; moment = 0; images_at = λ m c. c ≡ (λ i. 0) }) 0
        (0 ∷ 1 ∷ []) 1 }
{}
