//! The bytes of a disk in memory: as they read, as the last sync left them, and which of them are pending.
ghost use Rattle.std.specs.Prelude.{◌≡◌, ◌≤◌, ◌<◌, ℕ, ◌+◌, ◌-◌, ◌++◌, ◌==◌, ◌^◌, if◌then◌else◌, length, vec_len, vec_capacity, take, drop, max, slice_index, IfOk, OnOk, OnErr, [], replicate, true, false};
ghost use Rattle.def_crash.specs.Image.{window};
ghost use Rattle.strat_base.specs.Numbers.{placed};
ghost use Rattle.strat_disk.specs.Medium.{shown, at_rest, written, settled, altered, crashed, IsWhole};

use std::alloc::{AllocError, Global};

/// Three lists of one length.
#[derive(Drop)]
pub struct Plane {
    pub bytes: Vec<u8>,
    pub durable: Vec<u8>,
    pub pending: Vec<bool>,
    ghost durable_len: { length durable.items ≡ length bytes.items },
    ghost pending_len: { length pending.items ≡ length bytes.items },
    ghost whole: { IsWhole (shown bytes.items durable.items pending.items) },
}

impl Plane {
    ghost use Rattle.strat_disk.specs.PlaneView.{plane_of, HasRoom};

    /// No bytes.
    pub fn new(alloc: Global) -> Plane
        ensures len { result.bytes.items ≡ [] }
        ensures ok { plane_of result ≡ at_rest (λ _. 0) }
    {
        Plane {
            bytes: Vec::new(alloc),
            durable: Vec::new(alloc),
            pending: Vec::new(alloc),
        }
    }

    /// These bytes, all of them durable.
    pub fn at_rest(alloc: Global, bytes: Vec<u8>) -> Result<Plane, AllocError>
        ensures found { IfOk result (λ p. p.bytes.items ≡ bytes.items) }
        ensures ok { IfOk result (λ p. plane_of p ≡ at_rest (slice_index bytes.items)) }
    {
        let durable = bytes.to_vec(alloc)?;
        let pending = vec![in alloc; false; bytes.len()]?;
        Ok(Plane {
            bytes,
            durable,
            pending,
        })
    }

    /// Fills `into` with the bytes from `at` on, and with zeros after the last of them.
    pub fn read(&self, at: usize, into: &mut [u8])
        requires { at + length into.old < 2 ^ 64 }
        ensures { into.new ≡ window (plane_of self.now).content at (length into.old) }
    {
        fill(&self.bytes, at, into);
    }

    /// What a crash leaves: the pending bytes are the old ones, the new ones, or 0xa7.
    pub fn crash(&self, alloc: Global, choice: u8) -> Result<Vec<u8>, AllocError>
        ensures len { IfOk result (λ v. length v.items ≡ length self.now.bytes.items) }
        ensures ok { IfOk result (λ v. slice_index v.items
            ≡ crashed choice (plane_of self.now)) }
    {
        let mut left = Vec::with_capacity(alloc, self.bytes.len())?;
        for i in 0..self.bytes.len() {
            left.push(left_at(choice, self.pending[i], self.durable[i], self.bytes[i]))?;
        }
        Ok(left)
    }

    /// Takes the memory for so many bytes.
    pub fn reserve(&mut self, len: usize) -> Result<(), AllocError>
        ensures room { OnOk result (HasRoom self.new len) }
        ensures same { plane_of self.new ≡ plane_of self.old }
        ensures len { length self.new.bytes.items ≡ length self.old.bytes.items }
    {
        let more = len.saturating_sub(self.bytes.len());
        self.bytes.reserve(more)?;
        self.durable.reserve(more)?;
        self.pending.reserve(more)?;
        Ok(())
    }

    /// Makes it at least so long, by zeros.
    pub fn lengthen(&mut self, len: usize)
        requires { HasRoom self.old len }
        ensures same { plane_of self.new ≡ plane_of self.old }
        ensures len { length self.new.bytes.items ≡ max (length self.old.bytes.items) len }
    {
        if len <= self.bytes.len() {
            return;
        }
        lengthen(&mut self.bytes, len);
        lengthen(&mut self.durable, len);
        lengthen_marks(&mut self.pending, len);
    }

    /// Writes these bytes, which are pending from then on.
    pub fn write(&mut self, at: usize, bytes: &[u8])
        requires { at + length bytes.now ≤ length self.old.bytes.items }
        ensures ok { plane_of self.new ≡ written at bytes.now (plane_of self.old) }
        ensures len { length self.new.bytes.items ≡ length self.old.bytes.items }
    {
        overwrite(&mut self.bytes, at, bytes);
        mark(&mut self.pending, at, bytes.len());
    }

    /// Nothing is pending from then on.
    pub fn sync(&mut self)
        ensures ok { plane_of self.new ≡ settled (plane_of self.old) }
        ensures same { self.new.bytes.items ≡ self.old.bytes.items }
    {
        copy(&mut self.durable, &self.bytes);
        unmark(&mut self.pending);
    }

    /// Sets one byte, and leaves no trace of the one before it.
    pub fn alter(&mut self, at: usize, byte: u8)
        requires { at < length self.old.bytes.items }
        ensures ok { plane_of self.new ≡ altered at byte (plane_of self.old) }
        ensures len { length self.new.bytes.items ≡ length self.old.bytes.items }
    {
        self.bytes[at] = byte;
        self.durable[at] = byte;
        self.pending[at] = false;
    }

    /// Becomes equal to another of its length.
    pub fn copy_from(&mut self, other: &Plane)
        requires { length self.old.bytes.items ≡ length other.now.bytes.items }
        ensures ok { plane_of self.new ≡ plane_of other.now }
        ensures len { length self.new.bytes.items ≡ length self.old.bytes.items }
    {
        copy(&mut self.bytes, &other.bytes);
        copy(&mut self.durable, &other.durable);
        copy_marks(&mut self.pending, &other.pending);
    }
}

fn left_at(choice: u8, pending: bool, old: u8, new: u8) -> u8
    ensures { result ≡ (if pending
        then (if choice == 0 then old else if choice == 1 then new else 0xa7) else old) }
{
    match (pending, choice) {
        (false, _) => old,
        (true, 0) => old,
        (true, 1) => new,
        _ => 0xa7,
    }
}

fn fill(bytes: &Vec<u8>, at: usize, into: &mut [u8])
    requires { at + length into.old < 2 ^ 64 }
    ensures { into.new ≡ window (slice_index bytes.now.items) at (length into.old) }
{
    for (i, b) in into.iter_mut().enumerate() {
        *b = bytes.get(at + i).copied().unwrap_or(0);
    }
}

fn lengthen(into: &mut Vec<u8>, len: usize)
    requires room { len ≤ vec_capacity into.old }
    requires fits { vec_len into.old ≤ len }
    ensures ok { into.new.items
        ≡ take len into.old.items ++ replicate (len - vec_len into.old) 0 }
    ensures len { vec_len into.new ≡ len }
{
    into.resize(len, 0).unwrap();
}

fn lengthen_marks(into: &mut Vec<bool>, len: usize)
    requires room { len ≤ vec_capacity into.old }
    requires fits { vec_len into.old ≤ len }
    ensures ok { into.new.items
        ≡ take len into.old.items ++ replicate (len - vec_len into.old) false }
    ensures len { vec_len into.new ≡ len }
{
    into.resize(len, false).unwrap();
}

fn overwrite(into: &mut Vec<u8>, at: usize, bytes: &[u8])
    requires { at + length bytes.now ≤ length into.old.items }
    ensures { into.new.items ≡ placed into.old.items at bytes.now }
{
    into[at..at + bytes.len()].copy_from_slice(bytes);
}

fn mark(into: &mut Vec<bool>, at: usize, n: usize)
    requires { at + n ≤ length into.old.items }
    ensures { into.new.items
        ≡ take at into.old.items ++ replicate n true ++ drop (at + n) into.old.items }
{
    into[at..at + n].fill(true);
}

fn unmark(into: &mut Vec<bool>)
    ensures { into.new.items ≡ replicate (length into.old.items) false }
{
    into.fill(false);
}

fn copy(into: &mut Vec<u8>, from: &Vec<u8>)
    requires { length into.old.items ≡ length from.now.items }
    ensures { into.new.items ≡ from.now.items }
{
    into.copy_from_slice(from);
}

fn copy_marks(into: &mut Vec<bool>, from: &Vec<bool>)
    requires { length into.old.items ≡ length from.now.items }
    ensures { into.new.items ≡ from.now.items }
{
    into.copy_from_slice(from);
}
