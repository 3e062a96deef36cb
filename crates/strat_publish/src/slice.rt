//! One slice of the open promotion of a store.

ghost use Rattle.std.specs.Prelude.{◌≡◌, ◌≤◌, ℕ, ◌+◌, ◌-◌, ◌*◌, length, true, None, Some, IfOk, IsErrOf, Contains};
ghost use Rattle.strat_array.specs.Kept.{Blocks};
ghost use Rattle.def_crash.specs.Blocks.{TearsBlocks};
ghost use Rattle.def_crash.specs.Faults.{HasCause};
ghost use Rattle.def_crash.specs.Image.{Image};
ghost use Rattle.def_crash.specs.Moments.{Exposes};
ghost use Rattle.strat_extent.specs.Blocks.{is_free};
ghost use Rattle.strat_promote.specs.Job.{IsBadInput, arrays_to, blocks_listed};
ghost use Rattle.strat_promote.specs.Promotions.{MatchProgress, ReadsItsBlocks, ReadsOf, SamePromotion, has_ended, level_of, target_of};
ghost use Rattle.strat_promote.specs.declared.obstacle.Obstacle.TheVariants as obstacle;
ghost use Rattle.strat_promote.specs.declared.obstacle.Obstacle.TheVariants.{Device, Damaged};
ghost use Rattle.def_slice.specs.Opened.{slice_numbers};
ghost use Rattle.def_publish.specs.Contents.{Contents};
ghost use Rattle.strat_cursor.specs.Looking.{arrays_there};
ghost use Rattle.strat_memory.specs.Held.{IsConsistent, IsOpenAt, MayGoOnWith, StandsWith};
ghost use Rattle.strat_memory.specs.RecoveredFields.{held_of, open_of};
ghost use Rattle.strat_publish.specs.Promoting.{HasMade, KeepsOpenToBudget, StandsEnded, StandsOpenWith};

use strat_disk::Disk;
use strat_memory::open_store::{OpenStore, Promoting};
use strat_promote::obstacle::Obstacle;
use strat_promote::promotion::Progress;

/// One slice of a promotion that is open beside what a store holds: it takes at least as many entries as its budget, and
/// leaves one, or ends. It costs what `Promotion::slice` costs, and writes nothing but blocks that are free in its space.
/// Errors are those of `Promotion::slice`; where the store stands only want of memory and the device's are.
pub(crate) fn slice_open<D: Disk>(
    held: &OpenStore,
    promoting: &mut Promoting,
    disk: &mut D,
) -> Result<Progress, Obstacle>
    requires kept { ((cached : Blocks) → IsConsistent (held_of held.now cached)
        × MayGoOnWith (held_of held.now cached) (open_of promoting.old))
        × (held.now.promoting ≡ None) }
    ensures kept { IfOk result (λ p. MatchProgress p
        ((cached : Blocks) → MayGoOnWith (held_of held.now cached) (open_of promoting.new))
        ((has_ended promoting.new.promotion ≡ true) × ((cached : Blocks)
        → HasMade (held_of held.now cached) promoting.new.space (target_of promoting.new.promotion)
        (level_of promoting.new.promotion)))) }
    ensures ok { IfOk result (λ p. MatchProgress p ((x : Contents) (cached : Blocks)
        → StandsOpenWith (D.view disk.old) (held_of held.now cached) x (open_of promoting.old)
        → (length held.now.journal.list + 1 ≤ 2 * held.now.sb.mem - 2)
        × (s : StandsWith (D.view disk.new) (held_of held.now cached) x)
        × IsOpenAt s.stands.content (held_of held.now cached) x
        (length held.now.journal.list + 1) (open_of promoting.new))
        ((x : Contents) (cached : Blocks)
        → StandsOpenWith (D.view disk.old) (held_of held.now cached) x (open_of promoting.old)
        → StandsEnded (D.view disk.new) (held_of held.now cached) x (open_of promoting.new))) }
    ensures budget { IfOk result (λ p. MatchProgress p
        (KeepsOpenToBudget (D.view disk.old) held.now (open_of promoting.old)
        (Some (slice_numbers (open_of promoting.new))))
        (KeepsOpenToBudget (D.view disk.old) held.now (open_of promoting.old) None)) }
    ensures found { IfOk result (λ p. MatchProgress p ((f g : Image) → Exposes (D.view disk.old) f
        → Exposes (D.view disk.new) g
        → ReadsOf f (arrays_to held.now.published.levels (target_of promoting.old.promotion))
        promoting.old.promotion
        → ReadsOf g (arrays_to held.now.published.levels (target_of promoting.new.promotion))
        promoting.new.promotion) (Unit {0})) }
    ensures err { IsErrOf result obstacle.Unfit → (x : Contents) (cached : Blocks)
        → StandsOpenWith (D.view disk.old) (held_of held.now cached) x (open_of promoting.old) → ⊥ }
    ensures images { TearsBlocks (is_free promoting.old.space) (D.view disk.old) (D.view disk.new) }
    ensures cause { HasCause Device (D.faults disk.old) (D.faults disk.new) result }
    ensures damaged { (b : ℕ) → IsErrOf result (Damaged b)
        → Contains (blocks_listed (arrays_there held.now.published.levels)) b
        × ((f : Image) → Exposes (D.view disk.old) f
        → ReadsOf f (arrays_to held.now.published.levels (target_of promoting.old.promotion))
        promoting.old.promotion
        → IsBadInput f (arrays_there held.now.published.levels) b) }
    ensures reads { ReadsItsBlocks (arrays_to held.now.published.levels
        (target_of promoting.old.promotion)) (D.reads disk.old) (D.reads disk.new)
        promoting.old.promotion promoting.new.promotion result }
{
    let (zero, pool, tree) = held.memory.sealed_parts();
    promoting.promotion.slice(
        zero,
        &held.published.levels,
        pool,
        tree,
        &mut promoting.space,
        disk,
        promoting.budget,
    )
}
