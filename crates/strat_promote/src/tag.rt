//! Tags: the versions that an array is for.

ghost use Rattle.std.specs.Prelude.{◌≡◌, IfOk};
ghost use Rattle.strat_base.specs.Entries.{is_tagged};

use std::alloc::Global;
use std::marker::Model;
use strat_base::{NoMemory, Version};

/// A copy of an array's versions, which are asked for one at a time. Those that the store wrote ascend, which is looked
/// at once: then a question is a binary search, and a scan where they do not.
#[derive(Drop)]
pub(crate) struct Tag {
    versions: Vec<Version>,
    is_sorted: bool,
}

impl Model for Tag {
    ghost use Rattle.std.specs.Prelude.{List, ℕ};

    ghost Value = { List ℕ };

    ghost use Rattle.strat_promote.specs.TagFields.{versions_kept, IsSortedAsSaid};

    ghost view = { versions_kept };

    ghost invariant = { IsSortedAsSaid };
}

impl Tag {
    /// A copy of these versions, in the time of copying them and of one pass. The only error is want of memory.
    pub(crate) fn of(alloc: Global, versions: &[Version]) -> Result<Tag, NoMemory>
        ensures ok { IfOk result (λ tag. tag ≡ versions.now) }
    {
        let copy = versions.to_vec(alloc)?;
        let is_sorted = versions.is_sorted();
        Ok(Tag {
            versions: copy,
            is_sorted,
        })
    }

    /// Whether a version is one of these. O(log versions), or O(versions) where they do not ascend.
    pub(crate) fn holds(&self, version: Version) -> bool
        ensures ok { result ≡ is_tagged self.now version }
    {
        if self.is_sorted {
            self.versions.binary_search(&version).is_ok()
        } else {
            self.versions.contains(&version)
        }
    }
}
