//! The frames of a page: a put for each of its pairs.

ghost use Rattle.std.specs.Prelude.{◌≡◌, ◌≤◌, ℕ, suc, ◌+◌, ◌%◌, ◌++◌, [], length, vec_capacity, IfOk};
ghost use Rattle.std.specs.List.{flat_map};
ghost use Rattle.strat_base.specs.PairBuf.{IsPair};
ghost use Rattle.strat_model.specs.Request.{Put};
ghost use Rattle.strat_model.specs.Spelling.{command_body};
ghost use Rattle.strat_model.specs.Stream.{frame};
ghost use Rattle.def_bulk.specs.Exporting.{put_bodies};
ghost use Rattle.strat_bulk.specs.Runs.{AreLawful};

use std::alloc::Global;
use std::marker::Model;
use strat_base::{NoMemory, PairBuf};
use strat_frame::{OutBuf, write_command};
use strat_model::Command;

/// Bytes of the frames of a page: 256 of at most 1,296 each.
const ROOM: usize = 331_776;

/// Adds bytes at the end, where there is room for them.
fn append(bytes: &mut Vec<u8>, more: &[u8])
    requires room { length bytes.old.items + length more.now ≤ vec_capacity bytes.old }
    ensures ok { bytes.new.items ≡ bytes.old.items ++ more.now }
    ensures len { length bytes.new.items ≡ length bytes.old.items + length more.now }
    ensures room { vec_capacity bytes.old ≤ vec_capacity bytes.new }
{
    bytes.extend_from_slice(more).unwrap();
}

/// The frames of a page's puts, and the tag of the next one. Tags are counted from 1, and of each the lowest 32 bits are
/// written. Its memory is taken by `new`.
#[derive(Drop)]
pub struct PutFrames {
    frame: OutBuf,
    bytes: Vec<u8>,
    tag: u32,
}

impl Model for PutFrames {
    ghost use Rattle.std.specs.Prelude.{◌≤◌, vec_capacity};
    ghost use Rattle.strat_bulk.specs.Framing.{Framed};

    ghost Value = { Framed };

    ghost view = { λ f. record { bytes = f.bytes.items; tag = f.tag } };

    ghost invariant = { λ f. 331776 ≤ vec_capacity f.bytes };
}

impl PutFrames {
    /// None so far. The only error is want of memory.
    pub(crate) fn new(alloc: Global) -> Result<PutFrames, NoMemory>
        ensures ok { IfOk result (λ f. f ≡ record { bytes = []; tag = 1 }) }
    {
        Ok(PutFrames {
            frame: OutBuf::new(alloc)?,
            bytes: Vec::with_capacity(alloc, ROOM)?,
            tag: 1,
        })
    }

    /// The bytes.
    pub(crate) fn bytes(&self) -> &[u8]
        ensures ok { result.now ≡ self.now.bytes }
    {
        &self.bytes
    }

    /// Adds the put of a pair at version 0, with the next tag.
    fn put(&mut self, key: &[u8], value: &[u8])
        requires fits { IsPair (key.now, value.now) }
        requires room { length self.old.bytes + 1296 ≤ 331776 }
        ensures ok { (n : ℕ) → n % 4294967296 ≡ self.old.tag
            → (self.new.bytes ≡ self.old.bytes
            ++ frame (command_body n (Put 0 key.now value.now)))
            × (suc n % 4294967296 ≡ self.new.tag) }
        ensures len { length self.new.bytes ≤ length self.old.bytes + 1296 }
    {
        self.frame.clear();
        let command = Command::Put {
            version: 0,
            key,
            value,
        };
        write_command(self.tag, &command, &mut self.frame);
        append(&mut self.bytes, self.frame.bytes());
        self.tag = self.tag.wrapping_add(1);
    }

    /// Puts the frames of a page in the place of those of the one before, with the next tags. In the time of copying their
    /// bytes.
    pub(crate) fn frame_page(&mut self, page: &PairBuf)
        ensures ok { (n : ℕ) → n % 4294967296 ≡ self.old.tag
            → (self.new.bytes ≡ flat_map frame (put_bodies n page.now))
            × ((n + length page.now) % 4294967296 ≡ self.new.tag) }
        ensures fits { AreLawful page.now }
    {
        self.bytes.clear();
        for i in 0..page.len() {
            self.put(page.key(i), page.value(i));
        }
    }
}
