//! The items of one key by the parts of their versions.

ghost use Rattle.std.specs.Prelude.{◌≡◌, ◌<◌, ◌≤◌, ◌+◌, length, [], slice_index, vec_len, vec_capacity, IsTrue};
ghost use Rattle.strat_live.specs.Counting.{are_below};
ghost use Rattle.strat_live.specs.Group.{is_descending};
ghost use Rattle.strat_split.specs.Chains.{IsLinked};
ghost use Rattle.strat_split.specs.Dealing.{item_leads, is_below_last, with_gift};
ghost use Rattle.strat_split.specs.Shares.{labels_in, IsLeadChain};

use crate::chains::link_place;
use crate::parts::Plan;
use crate::shares::Share;
use strat_arena::Item;

/// The items of a key, and the plan that says which part the version of each is in.
#[derive(Drop)]
pub(crate) struct Hand<'a> {
    pub items: &'a [Item],
    pub plan: &'a Plan,
}

/// The part of an item's version. O(1).
pub(crate) fn label(hand: &Hand, i: usize) -> u32
    requires fits { i < length hand.now.items.now }
    requires len { IsTrue (are_below (length hand.now.plan.now.part_of) hand.now.items.now) }
    ensures ok { result ≡ slice_index (labels_in hand.now) i }
{
    *hand.plan.part_of.get(hand.items[i].version as usize)
}

/// Chains the leads of each part. O(items).
pub(crate) fn link_leads(hand: &Hand, heads: &mut [Option<u32>], nexts: &mut [Option<u32>])
    requires len { IsTrue (are_below (length hand.now.plan.now.part_of) hand.now.items.now) }
    requires room { length hand.now.items.now ≤ 4294967295 }
    requires kept { IsLinked (labels_in hand.now) heads.old nexts.old
        (length hand.now.items.now) }
    ensures ok { IsLinked (labels_in hand.now) heads.new nexts.new 0 }
{
    let mut i = hand.items.len();
    while i > 0 {
        i -= 1;
        link_place(label(hand, i), heads, nexts, i);
    }
}

/// Adds the leads of a part, from its first one on.
fn add_leads(taken: &mut Vec<Item>, hand: &Hand, nexts: &[Option<u32>], share: Share)
    requires none { taken.old.items ≡ [] }
    requires kept { IsLeadChain (labels_in hand.now) nexts.now share.part share.head }
    requires room { length hand.now.items.now < vec_capacity taken.old }
    ensures ok { taken.new.items
        ≡ item_leads hand.now.plan.now hand.now.items.now share.part }
    ensures room { (vec_len taken.new < vec_capacity taken.new)
        × (vec_capacity taken.new ≡ vec_capacity taken.old) }
{
    let mut at = share.head;
    while let Some(i) = at {
        taken.push_reserved(hand.items[i as usize]);
        at = nexts[i as usize];
    }
}

/// Whether an item is older than the last of some leads.
fn is_below_last(leads: &[Item], item: Item) -> bool
    ensures ok { result ≡ is_below_last leads.now item }
{
    match leads.last() {
        Some(last) => item.version < last.version,
        None => true,
    }
}

/// Adds what a part takes over behind its leads. It is older than each of them where a plan is a split.
fn add_gift(taken: &mut Vec<Item>, gift: Option<Item>)
    requires room { vec_len taken.old < vec_capacity taken.old }
    ensures ok { taken.new.items ≡ with_gift taken.old.items gift }
    ensures room { vec_capacity taken.new ≡ vec_capacity taken.old }
{
    match gift {
        Some(item) if is_below_last(taken, item) => taken.push_reserved(item),
        _ => {}
    }
}

/// Takes what a part takes: its leads, and what it takes over. O(items taken).
pub(crate) fn take_share(taken: &mut Vec<Item>, hand: &Hand, nexts: &[Option<u32>], share: Share)
    requires kept { IsLeadChain (labels_in hand.now) nexts.now share.part share.head }
    requires room { length hand.now.items.now < vec_capacity taken.old }
    ensures ok { taken.new.items
        ≡ with_gift (item_leads hand.now.plan.now hand.now.items.now share.part) share.gift }
    ensures room { vec_capacity taken.new ≡ vec_capacity taken.old }
{
    taken.clear();
    add_leads(taken, hand, nexts, share);
    add_gift(taken, share.gift);
}
