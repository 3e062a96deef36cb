//! A disk that stops working after some calls, for tests.
ghost use Rattle.std.specs.Prelude.{◌≡◌, ◌≤◌, ◌<◌, ℕ, ◌+◌, ◌-◌, ◌^◌, nat_lt, length, Some, IfSome, IsSomeAnd, OnOk, OnErr};
ghost use Rattle.def_crash.specs.Faults.{CountsFaults, ReadsAtMost};
ghost use Rattle.def_crash.specs.Moments.{ReadsBack, Writes, Garbles, Passes, TearsRange, KeepsImages, IsDurable};

use crate::disk::Disk;
use crate::faults::fault;
use strat_base::Failed;

/// A disk behind a fuse: so many calls reach it, each as one call, and every later one fails and reaches nothing.
#[derive(Drop)]
pub struct FuseDisk<D> {
    inner: D,
    left: u64,
    faults: u64,
}

impl<D: Disk> FuseDisk<D> {
    ghost use Rattle.strat_disk.specs.Fuse.{inner_of, left_of, all_faults};

    /// Passes so many calls to `inner`.
    pub fn new(inner: D, calls: u64) -> FuseDisk<D>
        ensures ok { (inner_of result ≡ inner) × (left_of result ≡ calls) }
        ensures faults { all_faults D.faults result ≡ D.faults inner }
    {
        FuseDisk {
            inner,
            left: calls,
            faults: 0,
        }
    }

    /// The disk behind the fuse.
    pub fn into_inner(self) -> D
        ensures { result ≡ inner_of self }
    {
        let FuseDisk {
            inner,
            left: _,
            faults: _,
        } = self;
        inner
    }
}

impl<D: Disk> Disk for FuseDisk<D> {
    ghost use Rattle.strat_disk.specs.Fuse.{inner_of, all_faults, Fused};

    ghost view = { λ f. D.view f.inner };

    ghost faults = { all_faults D.faults };

    ghost reads = { λ f. D.reads f.inner };

    fn read_at(&mut self, at: u64, into: &mut [u8]) -> Result<(), Failed>
        requires { at + length into.old ≤ 2 ^ 44 }
        ensures ok { OnOk result (ReadsBack (D.view (inner_of self.old))
            at (length into.old) into.new) }
        ensures same { (D.view (inner_of self.new)).content
            ≡ (D.view (inner_of self.old)).content }
        ensures images { KeepsImages (D.view (inner_of self.old)) (D.view (inner_of self.new)) }
        ensures time { Passes (D.view (inner_of self.old)) (D.view (inner_of self.new)) }
        ensures cause { CountsFaults (all_faults D.faults self.old) (all_faults D.faults self.new)
            result }
        ensures reads { ReadsAtMost 1 (D.reads (inner_of self.old)) (D.reads (inner_of self.new)) }
        ensures faults { Fused D.faults self.old self.new result }
    {
        if !passes(&mut self.left) {
            return Err(fault(&mut self.faults));
        }
        self.inner.read_at(at, into)
    }

    fn write_at(&mut self, at: u64, bytes: &[u8]) -> Result<(), Failed>
        requires { at + length bytes.now ≤ 2 ^ 44 }
        ensures ok { OnOk result (Writes (D.view (inner_of self.old))
            (D.view (inner_of self.new)) at bytes.now) }
        ensures err { OnErr result (Garbles (D.view (inner_of self.old))
            (D.view (inner_of self.new)) at (length bytes.now)) }
        ensures images { TearsRange (D.view (inner_of self.old)) (D.view (inner_of self.new))
            at (length bytes.now) result }
        ensures time { Passes (D.view (inner_of self.old)) (D.view (inner_of self.new)) }
        ensures cause { CountsFaults (all_faults D.faults self.old) (all_faults D.faults self.new)
            result }
        ensures reads { D.reads (inner_of self.new) ≡ D.reads (inner_of self.old) }
        ensures faults { Fused D.faults self.old self.new result }
    {
        if !passes(&mut self.left) {
            return Err(fault(&mut self.faults));
        }
        self.inner.write_at(at, bytes)
    }

    fn sync(&mut self) -> Result<(), Failed>
        ensures ok { OnOk result (IsDurable (D.view (inner_of self.new))) }
        ensures same { (D.view (inner_of self.new)).content
            ≡ (D.view (inner_of self.old)).content }
        ensures images { KeepsImages (D.view (inner_of self.old)) (D.view (inner_of self.new)) }
        ensures time { Passes (D.view (inner_of self.old)) (D.view (inner_of self.new)) }
        ensures cause { CountsFaults (all_faults D.faults self.old) (all_faults D.faults self.new)
            result }
        ensures reads { D.reads (inner_of self.new) ≡ D.reads (inner_of self.old) }
        ensures faults { Fused D.faults self.old self.new result }
    {
        if !passes(&mut self.left) {
            return Err(fault(&mut self.faults));
        }
        self.inner.sync()
    }

    ghost leaves_content = { λ f. D.leaves_content f.inner };

    ghost leaves_bytes = { λ f. D.leaves_bytes f.inner };
}

/// Uses up a call, and says whether one was left.
fn passes(left: &mut u64) -> bool
    ensures ok { left.new ≡ left.old - 1 }
    ensures found { result ≡ nat_lt 0 left.old }
{
    let passed = *left > 0;
    *left = left.saturating_sub(1);
    passed
}
