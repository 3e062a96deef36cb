//! What lists outside an arena keep of its pairs.

ghost use Rattle.std.specs.Prelude.{◌≡◌};
ghost use Rattle.strat_arena.specs.Items.{said_by};
ghost use Rattle.strat_base.specs.EntryView.{val_of};

use strat_base::{Val, Version};

/// The number of a pair in its arena, counted from 0.
#[derive(Clone, Copy)]
pub struct Slot(pub u32);

/// An entry whose key and value lie in an arena: the pair, the entry's version, and whether it is
/// gone. A pair of a gone entry has an empty value.
#[derive(Clone, Copy)]
pub struct Item {
    pub slot: Slot,
    pub version: Version,
    pub gone: bool,
}

/// A value, unless the entry is gone.
pub(crate) fn val_unless(gone: bool, value: &[u8]) -> Val<'_>
    ensures ok { val_of result ≡ said_by gone value.now }
{
    if gone { Val::Gone } else { Val::Put(value) }
}
