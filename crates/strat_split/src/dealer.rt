//! Deals the items of one key out to the parts of a plan.

ghost use Rattle.std.specs.List.{list_all};
ghost use Rattle.std.specs.Prelude.{◌≡◌, ◌<◌, ◌≤◌, ◌+◌, Bool, length, vec_capacity, IfOk, OnOk, IfSome, IfNone, IsTrue};
ghost use Rattle.strat_arena.specs.declared.items.Item.{Item};
ghost use Rattle.strat_base.specs.Tree.{Parents};
ghost use Rattle.strat_live.specs.Counting.{are_below};
ghost use Rattle.strat_live.specs.Group.{is_descending};
ghost use Rattle.strat_split.specs.Dealing.{IsDealing, IsNextPart, IsSplitFor, TakeNothing};
ghost use Rattle.strat_split.specs.Hanging.{carriers_of};

use crate::hand::{Hand, link_leads, take_share};
use crate::hanging::Hanging;
use crate::parts::Plan;
use crate::shares::{Shares, forget, list_leads, new_shares, pass_down, take_least};
use std::alloc::Global;
use std::marker::Model;
use strat_arena::Item;
use strat_base::NoMemory;
use strat_tree::Tree;

/// Deals the items of one key after another out to the parts of a plan, so that who writes the arrays of
/// parts needn't ask of each part and each item whether the part takes it. Over a whole key it looks at
/// the key's items once and, for each entry that is written, at the parts that hang from its part.
///
/// It is seen as how far the items of a key are dealt out. Of this others need the number of parts
/// (`heads` has as many), the least part that is not dealt yet (`from`), and what the last one took
/// (`taken`).
#[derive(Drop)]
pub struct Dealer {
    shares: Shares,
    nexts: Vec<Option<u32>>,
    taken: Vec<Item>,
    from: usize,
}

impl Model for Dealer {
    ghost use Rattle.strat_split.specs.Dealing.{Deal};

    ghost Value = { Deal };

    ghost use Rattle.strat_split.specs.DealerFields.{deal_of, IsDealer};

    ghost view = { deal_of };

    ghost invariant = { IsDealer };
}

impl Dealer {
    /// A dealer for plans of so many parts. Takes 28 bytes for each.
    pub fn new(alloc: Global, parts: usize) -> Result<Dealer, NoMemory>
        ensures len { IfOk result (λ dealer. length dealer.heads ≡ parts) }
    {
        let shares = new_shares(alloc, parts)?;
        Ok(Dealer {
            shares,
            nexts: Vec::new(alloc),
            taken: Vec::with_capacity(alloc, 1)?,
            from: 0,
        })
    }

    /// Begins with the items of a key, and forgets what is left of those before. O(items) and what those
    /// before had left, and a move of 4 bytes for each lesser part that waits where another is put among
    /// them: none where parts and versions stand in one order, and p * p / 2 for items of p parts in the
    /// worst. Takes 20 bytes for each item, once for the largest key. Where memory is short, the key is
    /// not begun.
    pub fn begin(&mut self, items: &[Item], plan: &Plan) -> Result<(), NoMemory>
        requires kept { IsTrue (is_descending items.now) }
        requires len { length self.old.heads ≡ length plan.now.parts }
        requires fits { IsTrue (are_below (length plan.now.part_of) items.now) }
        requires room { length items.now ≤ 4294967295 }
        ensures ok { OnOk result ((tree : Parents) → IsTrue (are_below (length tree) items.now)
            → IsDealing tree plan.now items.now self.new) }
        ensures end { OnOk result (self.new.from ≡ 0) }
        ensures len { length self.new.heads ≡ length self.old.heads }
    {
        self.reserve(items.len())?;
        forget(&mut self.shares);
        let hand = Hand { items, plan };
        link_leads(&hand, &mut self.shares.heads, &mut self.nexts);
        list_leads(&hand, &self.shares.heads, &mut self.shares.waiting);
        self.from = 0;
        Ok(())
    }

    /// The next part that takes something, in ascending order. O(items that it takes), and for each part
    /// that hangs from it the time of `live_in` in these items, and a move of 4 bytes for each lesser part
    /// that waits if it has no lead. Takes no memory.
    pub fn next_part(
        &mut self,
        items: &[Item],
        tree: &Tree,
        plan: &Plan,
        hanging: &Hanging,
    ) -> Option<u32>
        requires kept { IsDealing tree.now.parents plan.now items.now self.old }
        requires same { hanging.now ≡ carriers_of plan.now.part_of plan.now.parts }
        ensures ok { (parents : Parents)
            → IsSplitFor tree.now.parents parents plan.now items.now → IfSome result (λ q.
            IsNextPart parents plan.now items.now self.old.from q self.new.taken) }
        ensures none { (parents : Parents)
            → IsSplitFor tree.now.parents parents plan.now items.now
            → IfNone result (TakeNothing parents plan.now items.now self.old.from) }
        ensures kept { IsDealing tree.now.parents plan.now items.now self.new }
        ensures found { IfSome result (λ q. (self.old.from ≤ q) × (q < length plan.now.parts)
            × (self.new.from ≡ q + 1)) }
        ensures len { IfSome result (λ q. 0 < length self.new.taken) }
        ensures fits { IfSome result (λ q. IsTrue (is_descending self.new.taken)) }
        ensures same { IfSome result (λ q. (test : Item → Bool) → IsTrue (list_all test items.now)
            → IsTrue (list_all test self.new.taken)) }
    {
        let Some(share) = take_least(&mut self.shares) else {
            return None;
        };
        let hand = Hand { items, plan };
        self.from = share.part as usize + 1;
        take_share(&mut self.taken, &hand, &self.nexts, share);
        pass_down(
            &mut self.shares,
            &self.taken,
            tree,
            plan,
            hanging,
            share.part,
        );
        Some(share.part)
    }

    /// What the last part took, with the greatest version first. O(1).
    pub fn taken(&self) -> &[Item]
        ensures ok { result.now ≡ self.now.taken }
    {
        &self.taken
    }

    /// Makes room for so many items, and forgets what the last part took.
    fn reserve(&mut self, items: usize) -> Result<(), NoMemory>
        requires room { items ≤ 4294967295 }
        ensures len { length self.new.heads ≡ length self.old.heads }
        ensures ok { OnOk result (length self.new.nexts ≡ items) }
    {
        reserve_for(&mut self.taken, &mut self.nexts, items)
    }
}

/// Makes room for so many items, and for one more where a part takes them.
fn reserve_for(
    taken: &mut Vec<Item>,
    nexts: &mut Vec<Option<u32>>,
    items: usize,
) -> Result<(), NoMemory>
    requires room { length nexts.old.items < vec_capacity taken.old }
    requires fits { items ≤ 4294967295 }
    ensures room { length nexts.new.items < vec_capacity taken.new }
    ensures len { OnOk result (length nexts.new.items ≡ items) }
{
    taken.clear();
    taken.reserve(items + 1)?;
    nexts.resize(items, None)?;
    Ok(())
}
