//! Laws of reports and summaries. Each is the contract of a function that does nothing.

ghost use Rattle.std.specs.Prelude.{◌≡◌, ℕ, Some};
ghost use Rattle.def_crash.specs.Image.{Image};
ghost use Rattle.def_state.specs.State.{State};
ghost use Rattle.def_recovery.specs.Head.{Head, head_of};
ghost use Rattle.def_recovery.specs.Opening.{state_of};
ghost use Rattle.def_texts.specs.Texts.{report, summary};

/// The texts of a head are those of the state that it is the head of. They say nothing of where on
/// the disk its parts lie.
pub fn texts_speak_of_states()
    ensures report { (c : Image) (h : Head) (s : State) → state_of c h ≡ Some s
        → report h ≡ report (head_of h.sb.generation s) }
    ensures summary { (c : Image) (h : Head) (s : State) (seed count : ℕ) → state_of c h ≡ Some s
        → summary h seed count ≡ summary (head_of h.sb.generation s) seed count }
{}
