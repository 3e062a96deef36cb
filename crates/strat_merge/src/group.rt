//! The items of one key.

ghost use Rattle.std.specs.Prelude.{◌≡◌, [], ◌∷◌, ◌++◌, length, IfOk, OnOk, OnErr, IsTrue};
ghost use Rattle.strat_arena.specs.Items.{have_pairs};
ghost use Rattle.strat_live.specs.Counting.{are_below};
ghost use Rattle.strat_live.specs.Group.{is_descending};
ghost use Rattle.strat_merge.specs.Keeping.{kept_items};
ghost use Rattle.strat_merge.specs.Thinning.{told_items};

use crate::purging::keep_needed;
use crate::thinning::keep_told;
use std::alloc::Global;
use std::marker::Model;
use strat_arena::{Arena, Item};
use strat_base::NoMemory;
use strat_tree::Tree;

/// The items of one key, with the greatest version first. It is seen as the list of them; their keys and
/// values lie in an arena.
#[derive(Drop)]
pub struct GroupBuf {
    items: Vec<Item>,
}

impl Model for GroupBuf {
    ghost use Rattle.std.specs.Prelude.{List};
    ghost use Rattle.strat_arena.specs.declared.items.Item.{Item};

    ghost Value = { List Item };

    ghost view = { λ g. g.items.items };
}

impl GroupBuf {
    /// No items, and room for as many as there are versions. A group of more takes more memory. Where
    /// memory is short, none stays taken.
    pub fn new(alloc: Global, versions: u32) -> Result<GroupBuf, NoMemory>
        ensures ok { IfOk result (λ g. g ≡ []) }
    {
        Ok(GroupBuf {
            items: Vec::with_capacity(alloc, versions as usize)?,
        })
    }

    /// The items, with the greatest version first. O(1).
    pub fn items(&self) -> &[Item]
        ensures ok { result.now ≡ self.now }
    {
        &self.items
    }

    /// Forgets all items.
    pub(crate) fn clear(&mut self)
        ensures ok { self.new ≡ [] }
    {
        self.items.clear();
    }

    /// Adds an item at the end.
    pub(crate) fn push(&mut self, item: Item) -> Result<(), NoMemory>
        ensures ok { OnOk result (self.new ≡ self.old ++ item ∷ []) }
        ensures err { OnErr result (self.new ≡ self.old) }
    {
        self.items.push(item)?;
        Ok(())
    }

    /// Keeps the items that say something.
    pub(crate) fn keep(&mut self, tree: &Tree)
        requires kept { IsTrue (is_descending self.old) }
        requires fits { IsTrue (are_below (length tree.now.parents) self.old) }
        ensures ok { self.new ≡ kept_items tree.now.parents self.old }
    {
        let kept = keep_needed(&mut self.items, tree);
        self.items.truncate(kept);
    }

    /// Keeps the items that tell something.
    pub(crate) fn keep_told(&mut self, arena: &Arena, tree: &Tree)
        requires kept { IsTrue (is_descending self.old) }
        requires fits { IsTrue (are_below (length tree.now.parents) self.old) }
        requires room { IsTrue (have_pairs arena.now.pairs self.old) }
        ensures ok { self.new
            ≡ told_items tree.now.parents tree.now.marks arena.now.pairs self.old }
    {
        let kept = keep_told(&mut self.items, arena, tree);
        self.items.truncate(kept);
    }
}
