//! A buffer for one frame that is sent.

ghost use Rattle.std.specs.Prelude.{◌≡◌, ◌+◌, ◌≤◌, ◌<◌, ◌^◌, [], ◌∷◌, ◌++◌, length, drop, IfOk};
ghost use Rattle.strat_base.specs.Numbers.{be};
ghost use Rattle.strat_model.specs.Spelling.{counted};
ghost use Rattle.strat_model.specs.Stream.{frame};

use std::alloc::Global;
use std::marker::Model;
use strat_base::{NoMemory, put_u16, put_u32, put_u64};

/// Bytes of the largest reply's frame.
pub const REPLY_MAX: usize = 328_460;

/// The bytes of one frame, of any reply's size. Its memory is taken by `new`.
#[derive(Drop)]
pub struct OutBuf {
    bytes: Vec<u8>,
}

impl Model for OutBuf {
    ghost use Rattle.std.specs.Prelude.{List, ℕ, ◌≤◌, vec_capacity};

    ghost Value = { List ℕ };

    ghost view = { λ b. b.bytes.items };

    ghost invariant = { λ b. 328460 ≤ vec_capacity b.bytes };
}

impl OutBuf {
    /// An empty buffer.
    pub fn new(alloc: Global) -> Result<OutBuf, NoMemory>
        ensures ok { IfOk result (λ b. b ≡ []) }
    {
        Ok(OutBuf {
            bytes: Vec::with_capacity(alloc, REPLY_MAX)?,
        })
    }

    /// The bytes.
    pub fn bytes(&self) -> &[u8]
        ensures { result.now ≡ self.now }
    {
        &self.bytes
    }

    /// Forgets the bytes.
    pub fn clear(&mut self)
        ensures { self.new ≡ [] }
    {
        self.bytes.clear();
    }

    /// Adds bytes at the end.
    pub fn put(&mut self, bytes: &[u8])
        requires { length self.old + length bytes.now ≤ 328460 }
        ensures ok { self.new ≡ self.old ++ bytes.now }
        ensures len { length self.new ≡ length self.old + length bytes.now }
    {
        self.bytes.extend_from_slice(bytes).unwrap();
    }

    /// Adds a byte.
    pub fn put_u8(&mut self, n: u8)
        requires { length self.old + 1 ≤ 328460 }
        ensures ok { self.new ≡ self.old ++ n ∷ [] }
        ensures len { length self.new ≡ length self.old + 1 }
    {
        self.bytes.push(n).unwrap();
    }

    /// Adds a number in two bytes.
    pub(crate) fn put_u16(&mut self, n: u16)
        requires { length self.old + 2 ≤ 328460 }
        ensures ok { self.new ≡ self.old ++ be 2 n }
        ensures len { length self.new ≡ length self.old + 2 }
    {
        let mut number = [0; 2];
        put_u16(&mut number, 0, n);
        self.put(&number);
    }

    /// Adds a number in four bytes.
    pub fn put_u32(&mut self, n: u32)
        requires { length self.old + 4 ≤ 328460 }
        ensures ok { self.new ≡ self.old ++ be 4 n }
        ensures len { length self.new ≡ length self.old + 4 }
    {
        let mut number = [0; 4];
        put_u32(&mut number, 0, n);
        self.put(&number);
    }

    /// Adds a number in eight bytes.
    pub(crate) fn put_u64(&mut self, n: u64)
        requires { length self.old + 8 ≤ 328460 }
        ensures ok { self.new ≡ self.old ++ be 8 n }
        ensures len { length self.new ≡ length self.old + 8 }
    {
        let mut number = [0; 8];
        put_u64(&mut number, 0, n);
        self.put(&number);
    }

    /// Adds a length in two bytes and so many bytes.
    pub(crate) fn put_counted(&mut self, bytes: &[u8])
        requires fits { length bytes.now < 2 ^ 16 }
        requires room { length self.old + 2 + length bytes.now ≤ 328460 }
        ensures ok { self.new ≡ self.old ++ counted bytes.now }
        ensures len { length self.new ≡ length self.old + 2 + length bytes.now }
    {
        self.put_u16(bytes.len() as u16);
        self.put(bytes);
    }

    /// Begins a frame: leaves four bytes for its length, and writes the number that its body begins with.
    pub fn begin(&mut self, tag: u32)
        requires { self.old ≡ [] }
        ensures len { length self.new ≡ 8 }
        ensures ok { drop 4 self.new ≡ be 4 tag }
    {
        self.put_u32(0);
        self.put_u32(tag);
    }

    /// Ends a frame: writes the length of what follows the first four bytes into these.
    pub fn end(&mut self)
        requires fits { 4 ≤ length self.old }
        requires room { length self.old ≤ 328460 }
        ensures { self.new ≡ frame (drop 4 self.old) }
    {
        let body_len = (self.bytes.len() - 4) as u32;
        put_u32(&mut self.bytes, 0, body_len);
    }
}
