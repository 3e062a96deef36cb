//! The last entry that was read, by its key and version.

ghost use Rattle.std.specs.Prelude.{◌≡◌, ◌≤◌, [], ◌∷◌, length, take, Some, None, IfOk, IsTrue};
ghost use Rattle.strat_base.specs.EntryBytes.{fits_fields};
ghost use Rattle.strat_base.specs.EntryView.{entry_of};
ghost use Rattle.strat_promote.specs.LeadRuns.{key_alone};
ghost use Rattle.strat_promote.specs.Leads.{comes_after};

use std::alloc::Global;
use std::marker::Model;
use strat_base::limits::KEY_MAX;
use strat_base::{Entry, NoMemory, Val, Version, entry_order};

/// The key and the version of an entry, if there is one, so that the entry behind it can be compared with it once its
/// block is no more in memory. The key is copied into a buffer that has room for any.
#[derive(Drop)]
pub struct LastRead {
    bytes: Vec<u8>,
    len: usize,
    version: Version,
    is_some: bool,
}

impl Model for LastRead {
    ghost use Rattle.std.specs.Prelude.{Option};
    ghost use Rattle.strat_base.specs.Entries.{Entry as TheEntry};

    ghost Value = { Option TheEntry };

    ghost use Rattle.strat_promote.specs.LastFields.{last_in, HasKeyRoom};

    ghost view = { last_in };

    ghost invariant = { HasKeyRoom };
}

/// Copies bytes to the front of others.
fn copy_front(into: &mut [u8], from: &[u8])
    requires { length from.now ≤ length into.old }
    ensures ok { take (length from.now) into.new ≡ from.now }
{
    into[..from.len()].copy_from_slice(from);
}

impl LastRead {
    /// None yet. The buffer of 255 bytes is taken here; the only error is want of memory.
    pub fn new(alloc: Global) -> Result<LastRead, NoMemory>
        ensures ok { IfOk result (λ last. last ≡ None) }
    {
        let mut bytes = Vec::with_capacity(alloc, KEY_MAX)?;
        bytes.resize(KEY_MAX, 0)?;
        Ok(LastRead {
            bytes,
            len: 0,
            version: 0,
            is_some: false,
        })
    }

    /// Forgets the entry. O(1).
    pub fn clear(&mut self)
        ensures ok { self.new ≡ None }
    {
        self.is_some = false;
    }

    /// Takes an entry's key and version. O(key).
    pub fn set(&mut self, e: &Entry<'_>)
        requires { IsTrue (fits_fields (entry_of e.now)) }
        ensures ok { self.new ≡ key_alone (Some (entry_of e.now)) }
    {
        copy_front(&mut self.bytes, e.key);
        self.len = e.key.len();
        self.version = e.version;
        self.is_some = true;
    }

    /// Whether an entry comes after this one, if there is one. O(key).
    pub fn is_before(&self, e: &Entry<'_>) -> bool
        ensures ok { result ≡ comes_after self.now (entry_of e.now ∷ []) }
    {
        if !self.is_some {
            return true;
        }
        let last = Entry {
            key: &self.bytes[..self.len],
            version: self.version,
            val: Val::Gone,
        };
        entry_order(&last, e).is_lt()
    }
}
