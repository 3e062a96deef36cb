//! The levels of a store below level 0.

ghost use Rattle.std.specs.Prelude.{◌≡◌, ◌<◌, ◌≤◌, ◌-◌, length, None, replicate, slice_set, slice_index_or, option_and_then};
ghost use Rattle.std.specs.Option.{option_copied};
ghost use Rattle.strat_level.specs.Levels.{desc_for, level_numbered, leads_if_any};

use crate::level::Level;
use std::marker::Model;
use std::{array, mem};
use strat_base::limits::LEVELS;
use strat_base::{ArrayDesc, Version};
use strat_tree::Tree;

/// Levels 1 to 22, each of which may be empty. They are seen as the list of their descriptors.
#[derive(Drop)]
pub struct Levels {
    levels: [Option<Level>; LEVELS],
}

impl Model for Levels {
    ghost use Rattle.std.specs.Prelude.{◌≡◌, List, Option, length};
    ghost use Rattle.strat_base.specs.declared.descriptors.LevelDesc.{LevelDesc};

    ghost Value = { List (Option LevelDesc) };

    ghost view = { λ a. a.levels };

    ghost invariant = { λ a. length a.levels ≡ 22 };
}

impl Levels {
    /// Empty levels. It takes no memory.
    pub fn new() -> Levels
        ensures ok { result ≡ replicate 22 None }
    {
        Levels {
            levels: [
                None, None, None, None, None, None, None, None, None, None, None, None, None, None,
                None, None, None, None, None, None, None, None,
            ],
        }
    }

    /// Puts a level in the place of a number, or empties it, and answers what was there. O(1).
    pub fn set(&mut self, number: usize, level: Option<Level>) -> Option<Level>
        requires fits { (1 ≤ number) × (number ≤ 22) }
        ensures ok { self.new ≡ slice_set self.old (number - 1) level }
        ensures found { result ≡ level_numbered self.old number }
        ensures len { length self.new ≡ 22 }
    {
        mem::replace(&mut self.levels[number - 1], level)
    }

    /// The level of a number, or `None` where it is empty. O(1).
    pub fn get(&self, number: usize) -> Option<&Level>
        ensures ok { option_copied result ≡ level_numbered self.now number }
        ensures len { length self.now ≡ 22 }
    {
        if 1 <= number && number <= LEVELS {
            self.levels[number - 1].as_ref()
        } else {
            None
        }
    }

    /// The leads of a level, or 0 where it is empty. O(1).
    pub fn leads(&self, number: usize) -> u32
        ensures ok { result ≡ leads_if_any (level_numbered self.now number) }
    {
        match self.get(number) {
            Some(level) => level.leads(),
            None => 0,
        }
    }

    /// The array of a level for v: its tag holds the nearest of v and its ancestors below the level's
    /// horizon. `None` where there is none, or no level. O(log versions_max): no tag is read.
    pub fn array_for(&self, tree: &Tree, number: usize, v: Version) -> Option<&ArrayDesc>
        requires fits { v < length tree.now.parents }
        ensures ok { option_copied result ≡ option_and_then
            (λ level. desc_for tree.now.parents level v) (level_numbered self.now number) }
    {
        self.get(number)?.array_for(tree, v)
    }
}
