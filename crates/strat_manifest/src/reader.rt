//! Bytes that are read from the front on.

ghost use Rattle.std.specs.Prelude.{◌≡◌, ◌==◌, length};
ghost use Rattle.def_bytes.specs.Manifest.{read_number};
ghost use Rattle.strat_manifest.specs.Reading.{Reads};

use crate::manifest::ManifestFault;
use std::marker::Model;
use strat_base::{get_u8, get_u32, get_u64};

/// What is left to be read of bytes. It is seen as those bytes.
#[derive(Drop)]
pub(crate) struct Reader<'a> {
    rest: &'a [u8],
}

impl<'a> Model for Reader<'a> {
    ghost use Rattle.std.specs.Prelude.{List, ℕ};

    ghost Value = { List ℕ };

    ghost view = { λ r. r.rest.now };
}

impl<'a> Reader<'a> {
    /// A reader of all these bytes.
    pub(crate) fn new(bytes: &'a [u8]) -> Reader<'a>
        ensures ok { result ≡ bytes.now }
    {
        Reader { rest: bytes }
    }

    /// Whether nothing is left.
    pub(crate) fn is_empty(&self) -> bool
        ensures ok { result ≡ (length self.now == 0) }
    {
        self.rest.is_empty()
    }

    /// The number in the next byte.
    #[tactic(auto, unfolding(def_bytes::specs::Manifest::read_number))]
    pub(crate) fn take_u8(&mut self) -> Result<u8, ManifestFault>
        ensures ok { Reads (read_number 1) self.old result self.new }
    {
        let Some(n) = get_u8(self.rest, 0) else {
            return Err(ManifestFault::Refused);
        };
        self.rest = &self.rest[1..];
        Ok(n)
    }

    /// The number in the next four bytes.
    #[tactic(auto, unfolding(def_bytes::specs::Manifest::read_number))]
    pub(crate) fn take_u32(&mut self) -> Result<u32, ManifestFault>
        ensures ok { Reads (read_number 4) self.old result self.new }
    {
        let Some(n) = get_u32(self.rest, 0) else {
            return Err(ManifestFault::Refused);
        };
        self.rest = &self.rest[4..];
        Ok(n)
    }

    /// The number in the next eight bytes.
    #[tactic(auto, unfolding(def_bytes::specs::Manifest::read_number))]
    pub(crate) fn take_u64(&mut self) -> Result<u64, ManifestFault>
        ensures ok { Reads (read_number 8) self.old result self.new }
    {
        let Some(n) = get_u64(self.rest, 0) else {
            return Err(ManifestFault::Refused);
        };
        self.rest = &self.rest[8..];
        Ok(n)
    }
}
