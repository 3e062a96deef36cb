//! What a check finds of an array's entries that are no leads of its level.

ghost use Rattle.std.specs.Prelude.{◌≡◌, ◌<◌, ℕ, ◌==◌, true, false, replicate, length, slice_index_or, IfOk};
ghost use Rattle.strat_check.specs.Strays.{strays_at};
ghost use Rattle.strat_check.specs.StrayGroups.{noted, with_answer, AreAllAsked};

use std::alloc::Global;
use strat_base::NoMemory;

/// What was found of an array's entries, of versions below the number of versions alone.
#[derive(Clone, Copy)]
pub struct Strays {
    /// One is no lead of the level.
    pub has_any: bool,
    /// One that is live at a version of the array's tag is no lead of the level.
    pub is_live: bool,
    /// One of the group at hand is no lead, and it was not asked yet whether such a one is live.
    pub(crate) is_due: bool,
}

/// Nothing was found of so many arrays.
pub(crate) fn no_strays(alloc: Global, arrays: usize) -> Result<Vec<Strays>, NoMemory>
    ensures len { IfOk result (λ found. length found.items ≡ arrays) }
    ensures kept { IfOk result (λ found. AreAllAsked found.items) }
    ensures ok { IfOk result (λ found. (i : ℕ) → ((strays_at found.items i).has_any ≡ false)
        × ((strays_at found.items i).is_live ≡ false)) }
{
    let none = Strays {
        has_any: false,
        is_live: false,
        is_due: false,
    };
    let found = vec![in alloc; none; arrays]?;
    Ok(found)
}

/// Notes that the array at a place has a stray, if there is such a place. O(1).
pub(crate) fn note(found: &mut [Strays], place: u32)
    ensures ok { (i : ℕ) → i < length found.old
        → strays_at found.new i ≡ noted (place == i) (strays_at found.old i) }
    ensures len { length found.new ≡ length found.old }
{
    let at = place as usize;
    if at < found.len() {
        found[at].has_any = true;
        found[at].is_due = true;
    }
}

/// Whether it is still to be asked of the array at a place if a stray is live. O(1).
pub(crate) fn is_due(found: &[Strays], place: u32) -> bool
    ensures ok { result ≡ (strays_at found.now place).is_due }
    ensures fits { result ≡ true → place < length found.now }
{
    let at = place as usize;
    at < found.len() && found[at].is_due
}

/// Notes of the array at a place whether a stray is live. O(1).
pub(crate) fn settle(found: &mut [Strays], place: u32, lives: bool)
    requires fits { place < length found.old }
    requires found { (strays_at found.old place).is_due ≡ true }
    ensures ok { (i : ℕ) → i < length found.old
        → strays_at found.new i ≡ with_answer (place == i) lives (strays_at found.old i) }
    ensures len { length found.new ≡ length found.old }
{
    let at = place as usize;
    found[at].is_due = false;
    found[at].is_live = found[at].is_live || lives;
}
