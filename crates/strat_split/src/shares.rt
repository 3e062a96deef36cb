//! What each part has of the items of a key before it is dealt, and how it is passed on from the part that
//! another hangs from.

ghost use Rattle.std.specs.Option.{option_map_or};
ghost use Rattle.std.specs.Prelude.{◌≡◌, ◌<◌, ◌≤◌, ℕ, ◌+◌, ◌==◌, ◌||◌, if◌then◌else◌, [], find, length, false, None, Some, is_some, slice_index, slice_index_or, slice_set, vec_capacity, IfSome, IfNone, IfOk, IsTrue};
ghost use Rattle.strat_arena.specs.declared.items.Item.{Item};
ghost use Rattle.strat_live.specs.Counting.{are_below};
ghost use Rattle.strat_live.specs.Group.{is_descending, is_live_item};
ghost use Rattle.strat_split.specs.Dealing.{above_of, taken_over, passed_on};
ghost use Rattle.strat_split.specs.Hanging.{carriers_of};
ghost use Rattle.strat_split.specs.Shares.{AreShares, AreFirst, is_led_before, labels_in};
ghost use Rattle.strat_split.specs.Waiting.{has_work, IsListed};

use crate::hand::{Hand, label};
use crate::hanging::Hanging;
use crate::parts::Plan;
use crate::waiting::put;
use std::alloc::Global;
use strat_arena::Item;
use strat_base::{NoMemory, Version};
use strat_live::live_in;
use strat_tree::Tree;

/// The place of the first lead of each part and what it takes over, and the parts that have something.
#[derive(Drop)]
pub(crate) struct Shares {
    pub heads: Vec<Option<u32>>,
    pub gifts: Vec<Option<Item>>,
    pub waiting: Vec<u32>,
}

/// What one part has.
#[derive(Clone, Copy)]
pub(crate) struct Share {
    pub part: u32,
    pub head: Option<u32>,
    pub gift: Option<Item>,
}

/// Nothing for so many parts.
pub(crate) fn new_shares(alloc: Global, parts: usize) -> Result<Shares, NoMemory>
    ensures kept { IfOk result (λ shares. AreShares shares) }
    ensures len { IfOk result (λ shares. length shares.heads.items ≡ parts) }
{
    let heads = vec![in alloc; None; parts]?;
    let gifts = vec![in alloc; None; parts]?;
    Ok(Shares {
        heads,
        gifts,
        waiting: Vec::with_capacity(alloc, parts)?,
    })
}

/// Takes the share of the least part that waits. O(1).
pub(crate) fn take_least(shares: &mut Shares) -> Option<Share>
    requires kept { AreShares shares.old }
    ensures kept { AreShares shares.new }
    ensures ok { IfSome result (λ share. (share.part < length shares.old.heads.items)
        × (share.head ≡ slice_index_or shares.old.heads.items share.part None)
        × (share.gift ≡ slice_index_or shares.old.gifts.items share.part None)) }
    ensures found { IfSome result (λ share.
        IsTrue (has_work shares.old.heads.items shares.old.gifts.items share.part)
        × ((r : ℕ) → r < share.part
        → has_work shares.old.heads.items shares.old.gifts.items r ≡ false)) }
    ensures same { IfSome result (λ share.
        (shares.new.heads.items ≡ slice_set shares.old.heads.items share.part None)
        × (shares.new.gifts.items ≡ slice_set shares.old.gifts.items share.part None)) }
    ensures none { IfNone result ((shares.new.heads.items ≡ shares.old.heads.items)
        × (shares.new.gifts.items ≡ shares.old.gifts.items)
        × ((q : ℕ) → has_work shares.new.heads.items shares.new.gifts.items q ≡ false)) }
    ensures len { IfSome result (λ share.
        length shares.new.waiting.items + 1 ≡ length shares.old.waiting.items) }
{
    let Some(part) = shares.waiting.pop() else {
        return None;
    };
    let q = part as usize;
    let share = Share {
        part,
        head: shares.heads[q],
        gift: shares.gifts[q],
    };
    shares.heads[q] = None;
    shares.gifts[q] = None;
    Some(share)
}

/// Forgets what parts have. O(parts that wait).
pub(crate) fn forget(shares: &mut Shares)
    requires kept { AreShares shares.old }
    ensures kept { AreShares shares.new }
    ensures none { (q : ℕ) → has_work shares.new.heads.items shares.new.gifts.items q ≡ false }
    ensures len { length shares.new.heads.items ≡ length shares.old.heads.items }
{
    while take_least(shares).is_some() {}
}

/// Whether the item at a place is the first lead of a part.
fn is_first(heads: &[Option<u32>], q: u32, i: usize) -> bool
    ensures ok { result ≡ option_map_or (λ k. k == i) (slice_index_or heads.now q None) false }
{
    match heads.get(q as usize) {
        Some(Some(first)) => *first as usize == i,
        _ => false,
    }
}

/// Lets the part of an item wait, if the item is its first lead.
fn list_lead(hand: &Hand, heads: &[Option<u32>], waiting: &mut Vec<u32>, i: usize)
    requires fits { i < length hand.now.items.now }
    requires len { IsTrue (are_below (length hand.now.plan.now.part_of) hand.now.items.now) }
    requires found { AreFirst (labels_in hand.now) heads.now }
    requires kept { IsListed (is_led_before heads.now i) waiting.old.items }
    requires room { length heads.now ≤ vec_capacity waiting.old }
    ensures kept { IsListed (is_led_before heads.now (i + 1)) waiting.new.items }
    ensures room { vec_capacity waiting.old ≤ vec_capacity waiting.new }
{
    let q = label(hand, i);
    if is_first(heads, q, i) {
        put(waiting, q);
    }
}

/// Lets the parts wait that have a lead, as those of the greatest versions come first. O(items), and a move
/// of 4 bytes for each lesser part that waits where another is put among them.
pub(crate) fn list_leads(hand: &Hand, heads: &[Option<u32>], waiting: &mut Vec<u32>)
    requires len { IsTrue (are_below (length hand.now.plan.now.part_of) hand.now.items.now) }
    requires found { AreFirst (labels_in hand.now) heads.now }
    requires none { waiting.old.items ≡ [] }
    requires room { length heads.now ≤ vec_capacity waiting.old }
    ensures kept { IsListed (λ q. is_some (slice_index_or heads.now q None)) waiting.new.items }
    ensures room { length heads.now ≤ vec_capacity waiting.new }
{
    for i in 0..hand.items.len() {
        list_lead(hand, heads, waiting, i);
    }
}

/// The item that is live where a part hangs.
fn live_above(items: &[Item], tree: &Tree, above: Option<Version>) -> Option<Item>
    requires kept { IsTrue (is_descending items.now) }
    requires found { IsTrue (are_below (length tree.now.parents) items.now) }
    ensures ok { result ≡ taken_over tree.now.parents items.now above }
{
    match above {
        Some(p) => live_at(items, tree, p),
        None => None,
    }
}

/// The item that is live at a version, whatever number that is.
fn live_at(items: &[Item], tree: &Tree, v: Version) -> Option<Item>
    requires kept { IsTrue (is_descending items.now) }
    requires found { IsTrue (are_below (length tree.now.parents) items.now) }
    ensures ok { result ≡ find (is_live_item tree.now.parents items.now v) items.now }
{
    if v >= tree.count() {
        return None;
    }
    match live_in(items, tree, v) {
        Some(i) => Some(items[i]),
        None => None,
    }
}

/// Lets a part wait, unless it does.
fn wait_for(shares: &mut Shares, q: u32)
    requires kept { AreShares shares.old }
    requires fits { q < length shares.old.heads.items }
    ensures ok { IsListed (λ r. has_work shares.old.heads.items shares.old.gifts.items r || r == q)
        shares.new.waiting.items }
    ensures same { (shares.new.heads.items ≡ shares.old.heads.items)
        × (shares.new.gifts.items ≡ shares.old.gifts.items) }
    ensures room { length shares.new.heads.items ≤ vec_capacity shares.new.waiting }
{
    if shares.heads[q as usize].is_none() && shares.gifts[q as usize].is_none() {
        put(&mut shares.waiting, q);
    }
}

/// Gives a part what it takes over.
fn give(shares: &mut Shares, q: u32, item: Item)
    requires kept { AreShares shares.old }
    requires fits { q < length shares.old.heads.items }
    ensures kept { AreShares shares.new }
    ensures ok { shares.new.gifts.items ≡ slice_set shares.old.gifts.items q (Some item) }
    ensures same { shares.new.heads.items ≡ shares.old.heads.items }
{
    wait_for(shares, q);
    shares.gifts[q as usize] = Some(item);
}

/// Passes on to a part what it takes over of what another took, from which it hangs. A part that hangs
/// from another has the greater number where a plan is a split.
fn pass_on(shares: &mut Shares, taken: &[Item], tree: &Tree, plan: &Plan, from: u32, r: u32)
    requires kept { AreShares shares.old }
    requires len { length shares.old.heads.items ≡ length plan.now.parts }
    requires fits { r < length plan.now.parts }
    requires found { IsTrue (is_descending taken.now)
        × IsTrue (are_below (length tree.now.parents) taken.now) }
    ensures kept { AreShares shares.new }
    ensures ok { (q : ℕ) → slice_index_or shares.new.gifts.items q None ≡ (if q == r
        then passed_on tree.now.parents plan.now taken.now from shares.old.gifts.items q
        else slice_index_or shares.old.gifts.items q None) }
    ensures same { shares.new.heads.items ≡ shares.old.heads.items }
{
    if from < r {
        if let Some(item) = live_above(taken, tree, plan.parts.get(r as usize).above) {
            give(shares, r, item);
        }
    }
}

/// Passes on what a part took to those that hang from it. O(items taken) for each of these parts, as in
/// `live_in`.
pub(crate) fn pass_down(
    shares: &mut Shares,
    taken: &[Item],
    tree: &Tree,
    plan: &Plan,
    hanging: &Hanging,
    from: u32,
)
    requires kept { AreShares shares.old }
    requires len { length shares.old.heads.items ≡ length plan.now.parts }
    requires same { hanging.now ≡ carriers_of plan.now.part_of plan.now.parts }
    requires fits { from < length plan.now.parts }
    requires found { IsTrue (is_descending taken.now)
        × IsTrue (are_below (length tree.now.parents) taken.now) }
    ensures kept { AreShares shares.new }
    ensures ok { (q : ℕ) → q < length plan.now.parts → slice_index_or shares.new.gifts.items q None
        ≡ (if slice_index (carriers_of plan.now.part_of plan.now.parts) q == from
        then passed_on tree.now.parents plan.now taken.now from shares.old.gifts.items q
        else slice_index_or shares.old.gifts.items q None) }
    ensures same { shares.new.heads.items ≡ shares.old.heads.items }
{
    let mut at = hanging.first_below(from);
    while let Some(r) = at {
        pass_on(shares, taken, tree, plan, from, r);
        at = hanging.next_beside(r);
    }
}
