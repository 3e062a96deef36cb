//! A disk in memory that keeps each of its moments.
ghost use Rattle.std.specs.Prelude.{◌≡◌, ◌≤◌, ◌<◌, ℕ, ◌+◌, ◌^◌, length, vec_len, vec_capacity, slice_index, true, false, IfOk, OnOk, OnErr, ◌++◌, ◌∷◌, []};
ghost use Rattle.def_crash.specs.Image.{window};
ghost use Rattle.strat_disk.specs.Medium.{at_rest, written, settled, altered, crashed};
ghost use Rattle.strat_disk.specs.PlaneView.{plane_of, SameWith};
ghost use Rattle.strat_disk.specs.History.{replay, Continues};

use crate::event::Event;
use crate::plane::Plane;
use std::alloc::{AllocError, Global};

/// The disk as it is, and as it was before these events.
#[derive(Drop)]
pub struct Log {
    pub first: Plane,
    pub events: Vec<Event>,
    pub present: Plane,
    pub pending: bool,
    ghost same_len: { length first.bytes.items ≡ length present.bytes.items },
    ghost replays: { replay (plane_of first) events.items ≡ plane_of present },
    ghost quiet: { pending ≡ false → (i : ℕ) → (plane_of present).pending i ≡ false },
    ghost spare: { pending ≡ true → vec_len events < vec_capacity events },
}

impl Log {
    /// A disk with these bytes, all of them durable.
    pub fn at_rest(alloc: Global, bytes: Vec<u8>) -> Result<Log, AllocError>
        ensures found { IfOk result (λ l. l.present.bytes.items ≡ bytes.items) }
        ensures ok { IfOk result (λ l. plane_of l.present
            ≡ at_rest (slice_index bytes.items)) }
    {
        let first = Plane::at_rest(alloc, Vec::from_slice(alloc, &bytes)?)?;
        let present = Plane::at_rest(alloc, bytes)?;
        Ok(Log {
            first,
            events: Vec::new(alloc),
            present,
            pending: false,
        })
    }

    /// Writes these bytes. Out of memory nothing is written.
    pub fn write(&mut self, alloc: Global, at: usize, bytes: &[u8]) -> Result<(), AllocError>
        requires { at + length bytes.now < 2 ^ 64 }
        ensures ok { OnOk result (plane_of self.new.present
            ≡ written at bytes.now (plane_of self.old.present)) }
        ensures err { OnErr result (plane_of self.new.present ≡ plane_of self.old.present) }
        ensures time { Continues (plane_of self.old.first) self.old.events.items
            (plane_of self.new.first) self.new.events.items }
    {
        let end = at + bytes.len();
        let copy = Vec::from_slice(alloc, bytes)?;
        self.reserve(end)?;
        self.first.lengthen(end);
        self.present.lengthen(end);
        self.present.write(at, bytes);
        note(&mut self.events, Event::Wrote(at, copy));
        self.pending = true;
        Ok(())
    }

    /// Makes all that is pending durable.
    pub fn sync(&mut self)
        ensures ok { plane_of self.new.present ≡ settled (plane_of self.old.present) }
        ensures same { self.new.present.bytes.items ≡ self.old.present.bytes.items }
        ensures time { Continues (plane_of self.old.first) self.old.events.items
            (plane_of self.new.first) self.new.events.items }
    {
        if self.pending {
            self.present.sync();
            note(&mut self.events, Event::Synced);
            self.pending = false;
        }
    }

    /// Sets one byte, as if it had always been there. The moments so far are forgotten.
    pub fn alter(&mut self, at: usize, byte: u8)
        requires { at < length self.old.present.bytes.items }
        ensures ok { plane_of self.new.present ≡ altered at byte (plane_of self.old.present) }
        ensures len { length self.new.present.bytes.items ≡ length self.old.present.bytes.items }
    {
        self.present.alter(at, byte);
        self.first.copy_from(&self.present);
        self.events.clear();
    }

    /// Takes the memory for a write up to this offset, and for the sync after it.
    fn reserve(&mut self, len: usize) -> Result<(), AllocError>
        ensures same { (self.new.events.items ≡ self.old.events.items)
            × SameWith self.old.first self.new.first len result
            × SameWith self.old.present self.new.present len result }
        ensures room { OnOk result (vec_len self.new.events + 2 ≤ vec_capacity self.new.events) }
    {
        make_room(&mut self.first, &mut self.present, &mut self.events, len)
    }
}

fn make_room(
    first: &mut Plane,
    present: &mut Plane,
    events: &mut Vec<Event>,
    len: usize,
) -> Result<(), AllocError>
    ensures same { (events.new.items ≡ events.old.items)
        × SameWith first.old first.new len result × SameWith present.old present.new len result }
    ensures len { vec_len events.new ≡ vec_len events.old }
    ensures fits { vec_capacity events.old ≤ vec_capacity events.new }
    ensures room { OnOk result (vec_len events.new + 2 ≤ vec_capacity events.new) }
{
    first.reserve(len)?;
    present.reserve(len)?;
    events.reserve(2)?;
    Ok(())
}

fn note(events: &mut Vec<Event>, event: Event)
    requires { vec_len events.old < vec_capacity events.old }
    ensures ok { events.new.items ≡ events.old.items ++ event ∷ [] }
    ensures len { vec_len events.new ≡ vec_len events.old + 1 }
    ensures fits { vec_capacity events.old ≤ vec_capacity events.new }
{
    events.push(event).unwrap();
}
