//! The beginning of a promotion of what fills the active region of a store's journal.

ghost use Rattle.std.specs.List.{list_all};
ghost use Rattle.std.specs.Prelude.{◌≡◌, ◌<◌, ◌≤◌, ℕ, ◌+◌, ◌-◌, ◌*◌, ◌^◌, List, length, nat_lt, is_some, option_map, IfOk, IfSome, IsErrOf, IsTrue, None};
ghost use Rattle.strat_array.specs.Kept.{Blocks};
ghost use Rattle.def_crash.specs.Image.{Image};
ghost use Rattle.strat_extent.specs.Blocks.{used_count};
ghost use Rattle.strat_level.specs.Target.{IsTarget};
ghost use Rattle.strat_promote.specs.Job.{arrays_to};
ghost use Rattle.strat_promote.specs.Promotions.{ReadsOf, target_of};
ghost use Rattle.strat_promote.specs.declared.obstacle.Obstacle.TheVariants as obstacle;
ghost use Rattle.def_slice.specs.Budget.{SliceNumbers, budget_for};
ghost use Rattle.def_slice.specs.Opened.{AreNumbersOf, slice_numbers};
ghost use Rattle.def_publish.specs.Contents.{Contents, contents_state};
ghost use Rattle.def_publish.specs.Occupied.{IsSpaceOf, extents_of};
ghost use Rattle.def_publish.specs.Standing.{ReadsAs};
ghost use Rattle.def_state.specs.Level.{Level};
ghost use Rattle.def_state.specs.Sound.{IsSound, journal_max};
ghost use Rattle.strat_memory.specs.Admitting.{chained_of};
ghost use Rattle.strat_memory.specs.Held.{IsConsistent, IsOpenAt, MayGoOnWith, contents_held};
ghost use Rattle.strat_memory.specs.RecoveredFields.{held_of, open_of};
ghost use Rattle.strat_publish.specs.Advancing.{FillsLevel};
ghost use Rattle.strat_publish.specs.Outcomes.{IsOkOrShort};
ghost use Rattle.strat_publish.specs.Promoting.{leads_in_memory};

use std::alloc::Global;
use strat_extent::Space;
use strat_memory::belonging::{mark_arrays, space_if_blocks_distinct};
use strat_memory::open_store::{OpenStore, Promoting};
use strat_promote::obstacle::Obstacle;
use strat_promote::promotion::Promotion;

/// More entries than any promotion takes in both passes.
const ALL: u64 = 1 << 63;

/// The space in which just the blocks of a store are used, those of the arrays that are kept for cursors among them.
/// `Unfit`: a block of all these stands twice, or has no number; none does where the store stands.
fn used_space(alloc: Global, held: &OpenStore) -> Result<Space, Obstacle>
    requires kept { (cached : Blocks) → IsConsistent (held_of held.now cached) }
    ensures ok { IfOk result (λ space. (cached : Blocks) (levels : List Level)
        → IsSpaceOf space (contents_held (held_of held.now cached) levels)
        (extents_of held.now.memory.cursors.retired)) }
    ensures room { IfOk result (λ space. length (chained_of held.now.published).blocks ≤ 2 ^ 21
        → space.first + used_count space + 2 ^ 30 < 4294967295) }
    ensures err { IsErrOf result obstacle.Unfit → IsTrue (list_all (λ b. nat_lt b 4294967295)
        (chained_of held.now.published).blocks) → ⊥ }
    ensures cause { IsOkOrShort result }
{
    let levels = held.published.manifest.levels.as_slice();
    let Some(mut space) = space_if_blocks_distinct(
        alloc,
        held.sb.mem,
        &held.published.chain,
        levels,
    )?
    else {
        return Err(Obstacle::Unfit);
    };
    if !mark_arrays(&mut space, held.memory.retired())? {
        return Err(Obstacle::Unfit);
    }
    // For the proof: no more blocks are used than were marked.
    let _ = space.free();
    Ok(space)
}

/// The budget of each slice of a promotion that begins at a fill of the journal, whose regions take `mem` changes each, and that
/// goes twice over so many entries: the least with which as many slices as changes may still come take all. Where none may
/// come, it is more than any promotion takes.
fn budget_at(fill: u32, mem: u32, sum: u64) -> u64
    requires fits { (4 ≤ mem) × (mem ≤ 4096) × (fill ≤ journal_max mem) × (sum ≤ 2 ^ 24) }
    ensures ok { result ≡ budget_for mem fill sum }
{
    let left = 2 * mem - 2 - fill;
    if left == 0 {
        return ALL;
    }
    (2 * sum).div_ceil(left as u64).max(1)
}

/// Begins a promotion of what is sealed and of the levels down to the first that has room for all their leads, in a space in
/// which just the blocks are used that the store holds. The horizon is the number of versions at the seal. Nothing is read or
/// written. Linear in the blocks' extents, and takes memory for them and for the group of one key. `Unfit`: a block of the
/// store stands twice; none does where it stands.
pub(crate) fn begin_open(alloc: Global, held: &OpenStore) -> Result<Promoting, Obstacle>
    requires kept { (cached : Blocks) → IsConsistent (held_of held.now cached) }
    requires len { held.now.sb.mem ≤ length held.now.journal.list }
    requires found { IsTrue (is_some held.now.memory.sealed) }
    ensures kept { IfOk result (λ p. (cached : Blocks)
        → MayGoOnWith (held_of held.now cached) (open_of p)) }
    ensures ok { IfOk result (λ p. (f : Image) (x : Contents) (cached : Blocks) → ReadsAs f x
        → IsSound (contents_state x) → x ≡ contents_held (held_of held.now cached) x.levels
        → length (chained_of held.now.published).blocks ≤ 2 ^ 21
        → IsOpenAt f (held_of held.now cached) x (length held.now.journal.list) (open_of p)) }
    ensures found { IfOk result (λ p. AreNumbersOf held.now.sb.mem (length held.now.journal.list)
        (leads_in_memory held.now.memory held.now.published.levels) None
        (slice_numbers (open_of p))
        × IsTarget (leads_in_memory held.now.memory held.now.published.levels) held.now.sb.mem
        (target_of p.promotion)
        × ((cached : Blocks) (levels : List Level)
        → IsSpaceOf p.space (contents_held (held_of held.now cached) levels)
        (extents_of held.now.memory.cursors.retired))) }
    ensures reads { IfOk result (λ p. (f : Image)
        → ReadsOf f (arrays_to held.now.published.levels (target_of p.promotion)) p.promotion) }
    ensures err { IsErrOf result obstacle.Unfit → IsTrue (list_all (λ b. nat_lt b 4294967295)
        (chained_of held.now.published).blocks) → ⊥ }
    ensures cause { IsOkOrShort result }
{
    let space = used_space(alloc, held)?;
    let levels = &held.published.levels;
    let (zero, _pool, tree) = held.memory.sealed_parts();
    let (versions, _changes, _updates) = held.memory.sealed_counts();
    let next_array = held.published.manifest.next_array;
    let promotion = Promotion::begin(alloc, zero, levels, tree, versions, held.sb.mem, next_array)?;
    let sum = promotion.leads(zero, levels);
    let budget = budget_at(held.journal.count(), held.sb.mem, sum);
    Ok(Promoting {
        promotion,
        space,
        budget,
        sum,
    })
}

/// The promotion that is open, or one that is begun. What it costs, and its errors, are those of `begin_open`.
pub(crate) fn open_now(
    alloc: Global,
    held: &OpenStore,
    taken: Option<Promoting>,
) -> Result<Promoting, Obstacle>
    requires kept { (cached : Blocks) → IsConsistent (held_of held.now cached)
        × IfSome (option_map open_of taken) (MayGoOnWith (held_of held.now cached)) }
    requires len { held.now.sb.mem ≤ length held.now.journal.list }
    requires found { IsTrue (is_some held.now.memory.sealed) }
    ensures kept { IfOk result (λ p. (cached : Blocks)
        → MayGoOnWith (held_of held.now cached) (open_of p)) }
    ensures ok { IfOk result (λ p. (f : Image) (x : Contents) (cached : Blocks) → ReadsAs f x
        → IsSound (contents_state x) → x ≡ contents_held (held_of held.now cached) x.levels
        → length (chained_of held.now.published).blocks ≤ 2 ^ 21
        → IfSome (option_map open_of taken)
        (IsOpenAt f (held_of held.now cached) x (length held.now.journal.list))
        → IsOpenAt f (held_of held.now cached) x (length held.now.journal.list) (open_of p)) }
    ensures found { IfOk result (λ p. ((n : SliceNumbers)
        → AreNumbersOf held.now.sb.mem (length held.now.journal.list)
        (leads_in_memory held.now.memory held.now.published.levels) (option_map open_of taken) n
        → n ≡ slice_numbers (open_of p))
        × FillsLevel held.now.sb.mem
        (leads_in_memory held.now.memory held.now.published.levels) (option_map open_of taken)
        (target_of p.promotion)) }
    ensures reads { IfOk result (λ p. (f : Image) → IfSome (option_map open_of taken) (λ o.
        ReadsOf f (arrays_to held.now.published.levels (target_of o.promotion)) o.promotion)
        → ReadsOf f (arrays_to held.now.published.levels (target_of p.promotion)) p.promotion) }
    ensures err { IsErrOf result obstacle.Unfit → IsTrue (list_all (λ b. nat_lt b 4294967295)
        (chained_of held.now.published).blocks) → ⊥ }
    ensures cause { IsOkOrShort result }
{
    match taken {
        Some(promoting) => Ok(promoting),
        None => begin_open(alloc, held),
    }
}
