//! A law of reports. It is the contract of a function that does nothing.

ghost use Rattle.std.specs.Prelude.{◌≡◌, map, Some};
ghost use Rattle.def_crash.specs.Image.{Image};
ghost use Rattle.def_recovery.specs.Head.{Head, descriptors};
ghost use Rattle.def_recovery.specs.Opening.{state_of};
ghost use Rattle.def_state.specs.Sound.{IsSound};
ghost use Rattle.def_state.specs.State.{State, densities, lead_fractions};

/// What the descriptors of a head say of its arrays, and a report prints, are the densities and the lead fractions of the
/// arrays themselves, where the bytes read as a sound state.
pub fn printed_fractions_are_those_of_the_arrays()
    ensures ok { (c : Image) (h : Head) (s : State) → state_of c h ≡ Some s → IsSound s
        → map (λ a. (a.least, a.entries)) (descriptors h.manifest) ≡ densities s }
    ensures found { (c : Image) (h : Head) (s : State) → state_of c h ≡ Some s → IsSound s
        → map (λ a. (a.leads, a.entries)) (descriptors h.manifest) ≡ lead_fractions s }
{}
