//! The next group of a pass.

ghost use Rattle.std.specs.List.{list_all};
ghost use Rattle.std.specs.Prelude.{◌≡◌, ◌≤◌, ℕ, Bool, List, length, true, false, IfOk, OnOk, IsTrue};
ghost use Rattle.strat_arena.specs.ArenaView.{KeyValue};
ghost use Rattle.strat_arena.specs.Items.{entries_of};
ghost use Rattle.strat_arena.specs.declared.items.Item.{Item};
ghost use Rattle.strat_base.specs.Entries.{is_of};
ghost use Rattle.strat_base.specs.declared.failures.Trouble.TheVariants.{Damaged, Device};
ghost use Rattle.def_crash.specs.Image.{Image};
ghost use Rattle.def_crash.specs.Moments.{Exposes};
ghost use Rattle.strat_live.specs.Counting.{are_below};
ghost use Rattle.strat_live.specs.Group.{is_descending};
ghost use Rattle.strat_merge.specs.Gathered.{CountsTaken, are_under};
ghost use Rattle.strat_merge.specs.MergerFields.{runs_merged, views_of, consumed_of, IsUnspent};
ghost use Rattle.strat_merge.specs.Reading.{ReadsRuns};
ghost use Rattle.strat_merge.specs.Runs.{NoneLeft, lefts};
ghost use Rattle.strat_promote.specs.Taken.{IsTakenGroup, group_kept, TakesKept};

use strat_arena::Arena;
use strat_base::Trouble;
use strat_disk::Disk;
use strat_merge::{GroupBuf, Merger, Run, purge};
use strat_tree::Tree;

/// Drops the marks of a group that say nothing, where nothing lies deeper.
fn keep_needed(group: &mut GroupBuf, tree: &Tree, purges: bool)
    requires kept { IsTrue (is_descending group.old) }
    requires fits { IsTrue (are_below (length tree.now.parents) group.old) }
    ensures ok { (pairs : List KeyValue) (key : List ℕ)
        → IsTrue (list_all (is_of key) (entries_of pairs group.old)) → entries_of pairs group.new
        ≡ group_kept tree.now.parents purges (entries_of pairs group.old) }
    ensures kept { IsTrue (is_descending group.new) }
    ensures same { (p : Item → Bool) → IsTrue (list_all p group.old)
        → IsTrue (list_all p group.new) }
{
    if purges {
        purge(group, tree);
    }
}

/// Takes the group of the least key that is left, and drops from it the marks that say nothing, where nothing lies
/// deeper. `false` where no run has an entry left.
pub(crate) fn take_group<D: Disk, R: Run<D>>(
    merger: &mut Merger<R>,
    arena: &mut Arena,
    group: &mut GroupBuf,
    tree: &Tree,
    purges: bool,
    disk: &mut D,
) -> Result<bool, Trouble>
    requires kept { IsUnspent R.view merger.old }
    requires fits { IsTrue (are_under (length tree.now.parents) (views_of R.view merger.old)) }
    ensures kept { OnOk result (IsUnspent R.view merger.new) }
    ensures found { IfOk result (λ more. IsTrue more → (key : List ℕ) × IsTakenGroup
        (views_of R.view merger.old) (views_of R.view merger.new)
        arena.new.pairs group.new key) }
    ensures ok { IfOk result (λ more. IsTrue more → (c : Image) (n : ℕ)
        → Exposes (D.view disk.old) c → IsTrue (are_under n (views_of R.view merger.old))
        → TakesKept tree.now.parents purges n (lefts c (views_of R.view merger.old))
        (lefts c (views_of R.view merger.new)) (entries_of arena.new.pairs group.new)) }
    ensures none { IfOk result (λ more. more ≡ false → NoneLeft (views_of R.view merger.old)
        × (runs_merged merger.new ≡ runs_merged merger.old)) }
    ensures len { OnOk result ((c : Image) → Exposes (D.view disk.old) c
        → CountsTaken (lefts c (views_of R.view merger.old))
        (lefts c (views_of R.view merger.new))
        (consumed_of merger.old) (consumed_of merger.new)) }
    ensures reads { ReadsRuns R.view Device Damaged (D.view disk.old) (D.view disk.new)
        (D.faults disk.old) (D.faults disk.new) (D.reads disk.old) (D.reads disk.new)
        (runs_merged merger.old) (runs_merged merger.new) result }
{
    let more = merger.next_group::<D>(disk, arena, group)?;
    if more {
        keep_needed(group, tree, purges);
    }
    Ok(more)
}
