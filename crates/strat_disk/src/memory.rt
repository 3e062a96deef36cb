//! A disk in memory, for tests: it can fail at chosen calls, and it can crash.
ghost use Rattle.std.specs.Prelude.{◌≡◌, ◌≤◌, ◌<◌, ℕ, ◌+◌, ◌-◌, ◌^◌, [], true, length, slice_index, Some, IfOk, IfSome, IsSomeAnd, IsErr, IsTrue, OnOk, OnErr, is_err};
ghost use Rattle.def_crash.specs.Faults.{CountsFaults, one_more, ReadsAtMost};
ghost use Rattle.def_crash.specs.Moments.{Images, ReadsBack, Writes, Garbles, Passes, TearsRange, KeepsImages, IsDurable};
ghost use Rattle.strat_disk.specs.Calls.{is_failing};
ghost use Rattle.strat_disk.specs.Medium.{at_rest, written, settled, altered, crashed};

use crate::disk::Disk;
use crate::faults::fault;
use crate::log::Log;
use std::alloc::Global;
use strat_base::{Failed, NoMemory};

/// A disk in memory that keeps each of its moments, so that it takes more memory with each write.
#[derive(Drop)]
pub struct MemDisk {
    alloc: Global,
    log: Log,
    failing: Vec<u64>,
    calls: u64,
    reads: u64,
    faults: u64,
}

impl MemDisk {
    ghost use Rattle.strat_disk.specs.Memory.{bytes_of, medium_of, calls_of, reads_of, view_of, IsUncalled, KeepsCalls};

    /// An empty disk. The calls numbered in `failing`, from 1, will fail.
    pub fn new(alloc: Global, failing: &[u64]) -> Result<MemDisk, NoMemory>
        ensures ok { IfOk result (λ d. medium_of d ≡ at_rest (λ _. 0)) }
        ensures len { IfOk result (λ d. bytes_of d ≡ []) }
        ensures faults { IfOk result (λ d. IsUncalled d failing.now) }
    {
        let log = Log::at_rest(alloc, Vec::new(alloc))?;
        let failing = Vec::from_slice(alloc, failing)?;
        Ok(MemDisk {
            alloc,
            log,
            failing,
            calls: 0,
            reads: 0,
            faults: 0,
        })
    }

    /// Its bytes, up to the last that was written.
    pub fn bytes(&self) -> &[u8]
        ensures { result.now ≡ bytes_of self.now }
    {
        &self.log.present.bytes
    }

    /// The calls so far: reads, writes and syncs, with those that failed.
    pub fn calls(&self) -> u64
        ensures { result ≡ calls_of self.now }
    {
        self.calls
    }

    /// The reads among the calls so far.
    pub fn reads(&self) -> u64
        ensures { result ≡ reads_of self.now }
    {
        self.reads
    }

    /// Sets one byte, unseen by its user, as if it had always been there. The moments so far are forgotten.
    pub fn alter(&mut self, at: u64, byte: u8)
        requires { at < length (bytes_of self.old) }
        ensures ok { medium_of self.new ≡ altered at byte (medium_of self.old) }
        ensures len { length (bytes_of self.new) ≡ length (bytes_of self.old) }
        ensures same { KeepsCalls self.old self.new }
    {
        self.log.alter(at as usize, byte);
    }

    /// The disk after a crash now, with no calls that fail. Where a write was pending there are the bytes of the
    /// last sync for choice 0, the bytes written for choice 1, and 0xa7 for any other. Linear in its length.
    pub fn crash(&self, choice: u8) -> Result<MemDisk, NoMemory>
        ensures ok { IfOk result (λ d. medium_of d
            ≡ at_rest (crashed choice (medium_of self.now))) }
        ensures images { IfOk result (λ d. Images (view_of self.now) (slice_index (bytes_of d))) }
        ensures len { IfOk result (λ d. length (bytes_of d) ≡ length (bytes_of self.now)) }
        ensures faults { IfOk result (λ d. IsUncalled d []) }
    {
        let bytes = self.log.present.crash(self.alloc, choice)?;
        let log = Log::at_rest(self.alloc, bytes)?;
        Ok(MemDisk {
            alloc: self.alloc,
            log,
            failing: Vec::new(self.alloc),
            calls: 0,
            reads: 0,
            faults: 0,
        })
    }
}

/// Counts a call, and says whether it is to fail.
fn fails(calls: &mut u64, failing: &Vec<u64>) -> bool
    ensures ok { calls.new ≡ one_more calls.old }
    ensures found { result ≡ is_failing failing.now.items calls.new }
{
    *calls = calls.saturating_add(1);
    failing.contains(calls)
}

impl Disk for MemDisk {
    ghost use Rattle.strat_disk.specs.Memory.{medium_of, failing_of, calls_of, reads_of, faults_of, view_of, Called};
    ghost use Rattle.strat_disk.specs.History.{content_left};
    ghost use Rattle.strat_disk.specs.PlaneView.{plane_of};

    ghost view = { view_of };

    ghost faults = { faults_of };

    ghost reads = { reads_of };

    fn read_at(&mut self, at: u64, into: &mut [u8]) -> Result<(), Failed>
        requires { at + length into.old ≤ 2 ^ 44 }
        ensures ok { OnOk result (ReadsBack (view_of self.old) at (length into.old) into.new) }
        ensures same { (view_of self.new).content ≡ (view_of self.old).content }
        ensures images { KeepsImages (view_of self.old) (view_of self.new) }
        ensures time { Passes (view_of self.old) (view_of self.new) }
        ensures cause { CountsFaults (faults_of self.old) (faults_of self.new) result }
        ensures reads { ReadsAtMost 1 (reads_of self.old) (reads_of self.new) }
        ensures kept { Called self.old self.new (medium_of self.old) (one_more (reads_of self.old))
            result }
        ensures faults { is_err result ≡ is_failing (failing_of self.new) (calls_of self.new) }
    {
        self.reads = self.reads.saturating_add(1);
        if fails(&mut self.calls, &self.failing) {
            return Err(fault(&mut self.faults));
        }
        self.log.present.read(at as usize, into);
        Ok(())
    }

    /// Fails at each listed call, and besides only out of memory. So `faults` says one direction alone.
    fn write_at(&mut self, at: u64, bytes: &[u8]) -> Result<(), Failed>
        requires { at + length bytes.now ≤ 2 ^ 44 }
        ensures ok { OnOk result (Writes (view_of self.old) (view_of self.new) at bytes.now) }
        ensures err { OnErr result (Garbles (view_of self.old) (view_of self.new)
            at (length bytes.now)) }
        ensures images { TearsRange (view_of self.old) (view_of self.new) at (length bytes.now)
            result }
        ensures time { Passes (view_of self.old) (view_of self.new) }
        ensures cause { CountsFaults (faults_of self.old) (faults_of self.new) result }
        ensures reads { reads_of self.new ≡ reads_of self.old }
        ensures kept { Called self.old self.new (written at bytes.now (medium_of self.old))
            (reads_of self.old) result }
        ensures faults { is_failing (failing_of self.new) (calls_of self.new) ≡ true
            → IsErr result }
    {
        if fails(&mut self.calls, &self.failing) {
            return Err(fault(&mut self.faults));
        }
        match self.log.write(self.alloc, at as usize, bytes) {
            Ok(()) => Ok(()),
            Err(_) => Err(fault(&mut self.faults)),
        }
    }

    fn sync(&mut self) -> Result<(), Failed>
        ensures ok { OnOk result (IsDurable (view_of self.new)) }
        ensures same { (view_of self.new).content ≡ (view_of self.old).content }
        ensures images { KeepsImages (view_of self.old) (view_of self.new) }
        ensures time { Passes (view_of self.old) (view_of self.new) }
        ensures cause { CountsFaults (faults_of self.old) (faults_of self.new) result }
        ensures reads { reads_of self.new ≡ reads_of self.old }
        ensures kept { Called self.old self.new (settled (medium_of self.old)) (reads_of self.old)
            result }
        ensures faults { is_err result ≡ is_failing (failing_of self.new) (calls_of self.new) }
    {
        if fails(&mut self.calls, &self.failing) {
            return Err(fault(&mut self.faults));
        }
        self.log.sync();
        Ok(())
    }

    ghost leaves_content = { λ d. content_left (plane_of d.log.first) d.log.events.items
        (plane_of d.log.present) d.log.replays d.log.present.whole };

    ghost leaves_bytes = { λ d m c left. left.bytes };
}
