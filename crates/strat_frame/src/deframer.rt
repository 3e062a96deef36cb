//! Cutting a stream into frames, whatever the pieces in which it comes.

ghost use Rattle.std.specs.Prelude.{◌≡◌, ◌+◌, ◌-◌, ◌≤◌, [], ◌++◌, length, IfOk};
ghost use Rattle.strat_base.specs.Numbers.{AreBytes};
ghost use Rattle.strat_frame.specs.Deframing.{Deframing, TakesFrame, BeginsWith};

use std::alloc::Global;
use std::marker::Model;
use strat_base::limits::BODY_MAX;
use strat_base::{NoMemory, get_u32};

/// Bytes that a deframer holds at most: a frame of the largest size, and a piece after it.
pub const ROOM: usize = 6148;

/// What a look at the bytes held found.
#[derive(Clone, Copy, Debug, PartialEq, Eq)]
pub enum Next {
    /// A frame was whole. It was taken away, and its body is kept.
    Frame,
    /// No frame is whole yet.
    NotYet,
    /// The next frame says that it is longer than a frame may be. Nothing after it is read.
    TooLong { length: u32 },
}

/// The bytes of a stream that are in no frame yet, and the body of the last frame. Its memory is taken by
/// `new`.
#[derive(Drop)]
pub struct Deframer {
    bytes: Vec<u8>,
    start: usize,
    body_at: usize,
    body_len: usize,
}

impl Model for Deframer {
    ghost use Rattle.std.specs.Prelude.{take, drop, vec_capacity};
    ghost use Rattle.strat_base.specs.Numbers.{AreBytes};
    ghost use Rattle.strat_frame.specs.Deframing.{Deframing, IsCut};

    ghost Value = { Deframing };

    ghost view = { λ d. record {
      held = drop d.start d.bytes.items;
      body = take d.body_len (drop d.body_at d.bytes.items);
    } };

    ghost invariant = { λ d. IsCut d.bytes.items (vec_capacity d.bytes) d.start d.body_at d.body_len };
}

/// What bytes begin with.
enum Front {
    /// A frame with a body of so many bytes.
    Whole(usize),
    /// Less than a whole frame.
    Part,
    /// A length that no frame may have.
    TooLong(u32),
}

/// What these bytes begin with.
fn look_at(held: &[u8]) -> Front
    ensures ok { BeginsWith result held.now }
    ensures fits { AreBytes held.now }
{
    let Some(length) = get_u32(held, 0) else {
        return Front::Part;
    };
    let body_len = length as usize;
    if body_len > BODY_MAX {
        return Front::TooLong(length);
    }
    if held.len() - 4 < body_len {
        return Front::Part;
    }
    Front::Whole(body_len)
}

impl Deframer {
    /// Nothing held, and an empty body.
    pub fn new(alloc: Global) -> Result<Deframer, NoMemory>
        ensures ok { IfOk result (λ d. d ≡ record { held = []; body = [] }) }
    {
        Ok(Deframer {
            bytes: Vec::with_capacity(alloc, ROOM)?,
            start: 0,
            body_at: 0,
            body_len: 0,
        })
    }

    /// How many bytes are held.
    pub fn held(&self) -> usize
        ensures ok { result ≡ length self.now.held }
        ensures fits { result ≤ ROOM }
    {
        self.bytes.len() - self.start
    }

    /// How many more bytes may be held.
    pub fn room(&self) -> usize
        ensures { length self.now.held + result ≡ ROOM }
    {
        ROOM - self.held()
    }

    /// Holds a piece of the stream after what is held. What was held moves to the front, and the piece
    /// is copied once. Nothing is said of the last body afterwards.
    pub fn feed(&mut self, piece: &[u8])
        requires { length self.old.held + length piece.now ≤ ROOM }
        ensures { self.new.held ≡ self.old.held ++ piece.now }
    {
        self.bytes.rotate_left(self.start);
        let held = self.bytes.len() - self.start;
        self.bytes.truncate(held);
        self.bytes.extend_from_slice(piece).unwrap();
        self.start = 0;
        self.body_at = 0;
        self.body_len = 0;
    }

    /// Takes the next frame, if one is whole. A frame that is too long stays, and is found again.
    pub fn next(&mut self) -> Next
        ensures ok { TakesFrame result self.old self.new }
        ensures fits { AreBytes self.new.held }
    {
        match look_at(&self.bytes[self.start..]) {
            Front::Whole(body_len) => {
                self.body_at = self.start + 4;
                self.body_len = body_len;
                self.start = self.body_at + body_len;
                Next::Frame
            }
            Front::Part => Next::NotYet,
            Front::TooLong(length) => Next::TooLong { length },
        }
    }

    /// The body of the last frame, as long as no other call changed the deframer; empty where no frame
    /// was taken.
    pub fn body(&self) -> &[u8]
        ensures { result.now ≡ self.now.body }
    {
        &self.bytes[self.body_at..self.body_at + self.body_len]
    }
}
