//! A level in memory: its descriptor, with an index over the versions of its tags.

ghost use Rattle.std.specs.Prelude.{◌≡◌, ◌<◌, ◌≤◌, length, IfOk, IfErr, OnOk};
ghost use Rattle.std.specs.List.{find};
ghost use Rattle.std.specs.Option.{option_copied};
ghost use Rattle.strat_level.specs.Levels.{is_for, arrays_for, HaveDisjointTags, desc_for, desc_leads};
ghost use Rattle.strat_level.specs.Index.{IfOverlap};

use crate::index::{LevelFault, index_of, sum_of_leads};
use std::alloc::Global;
use std::marker::Model;
use strat_base::{ArrayDesc, LevelDesc, Version};
use strat_tree::Tree;

/// A level whose tags are disjoint. It is seen as its descriptor. Beside that it has 8 bytes for
/// each number up to the greatest version in a tag.
#[derive(Drop)]
pub struct Level {
    desc: LevelDesc,
    leads: u32,
    index: Vec<Option<u32>>,
}

impl Model for Level {
    ghost use Rattle.strat_base.specs.declared.descriptors.LevelDesc.{LevelDesc};

    ghost Value = { LevelDesc };

    ghost use Rattle.strat_level.specs.LevelFields.{desc_seen, IsIndexedLevel};

    ghost view = { desc_seen };

    ghost invariant = { IsIndexedLevel };
}

impl Level {
    /// The level of a descriptor. Refused with `Overlap` where a version stands in the tags of two
    /// arrays, and with `NoMemory`, which hand the descriptor back. A tag may have a version twice
    /// and need not be in order. O(greatest version + lengths of all tags); takes 8 bytes for each
    /// number up to that version.
    pub fn new(alloc: Global, desc: LevelDesc) -> Result<Level, (LevelFault, LevelDesc)>
        requires fits { 1 ≤ desc.horizon }
        requires room { desc_leads desc ≤ 4294967295 }
        ensures ok { IfOk result (λ level. level ≡ desc) }
        ensures kept { OnOk result (HaveDisjointTags desc.arrays) }
        ensures cause { IfErr result (λ e. IfOverlap e.0 (λ v. 1 < arrays_for desc.arrays v)) }
        ensures same { IfErr result (λ e. e.1 ≡ desc) }
    {
        let leads = sum_of_leads(desc.arrays.as_slice());
        match index_of(alloc, desc.arrays.as_slice()) {
            Ok(index) => Ok(Level { desc, leads, index }),
            Err(fault) => Err((fault, desc)),
        }
    }

    /// Its descriptor. O(1).
    pub fn desc(&self) -> &LevelDesc
        ensures ok { result.now ≡ self.now }
        ensures kept { HaveDisjointTags self.now.arrays }
        ensures fits { 1 ≤ self.now.horizon }
        ensures room { desc_leads self.now ≤ 4294967295 }
    {
        &self.desc
    }

    /// Its descriptor alone. O(1).
    pub fn into_desc(self) -> LevelDesc
        ensures ok { result ≡ self }
        ensures kept { HaveDisjointTags self.arrays }
        ensures fits { 1 ≤ self.horizon }
        ensures room { desc_leads self ≤ 4294967295 }
    {
        self.desc
    }

    /// The leads of its arrays, as their descriptors say. O(1).
    pub(crate) fn leads(&self) -> u32
        ensures ok { result ≡ desc_leads self.now }
    {
        self.leads
    }

    /// The array whose tag holds a version. O(1).
    fn array_with(&self, v: Version) -> Option<&ArrayDesc>
        ensures ok { option_copied result ≡ find (is_for v) self.now.arrays }
    {
        match self.index.get(v as usize) {
            Some(Some(number)) => Some(self.desc.arrays.get(*number as usize)),
            _ => None,
        }
    }

    /// The array whose tag holds the nearest of v and its ancestors below the horizon. O(log
    /// versions_max).
    pub(crate) fn array_for(&self, tree: &Tree, v: Version) -> Option<&ArrayDesc>
        requires { v < length tree.now.parents }
        ensures ok { option_copied result ≡ desc_for tree.now.parents self.now v }
    {
        self.array_with(tree.below(v, self.desc.horizon))
    }
}
