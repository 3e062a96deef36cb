//! A disk as a store sees it: its content, and what a crash at each moment may leave.
ghost use Rattle.std.specs.Prelude.{◌≡◌, ◌≤◌, ℕ, ◌+◌, ◌^◌, length, IfSome, OnOk, OnErr};
ghost use Rattle.def_crash.specs.Faults.{CountsFaults, ReadsAtMost};
ghost use Rattle.def_crash.specs.Image.{Image, HoldsBytes};
ghost use Rattle.def_crash.specs.Moments.{DiskView, Images, ReadsBack, Writes, Garbles, Passes, TearsRange, KeepsImages, IsDurable, WritesThrough};

use strat_base::Failed;

/// A disk of bytes, with no end: offsets after the last byte written read as 0.
///
/// Between two syncs a crash may leave any bytes in each range that was written, and leaves all others alone;
/// after a sync that succeeds it leaves what a read gives. Offsets are in bytes, up to `2^44`.
pub trait Disk {
    /// Its content, if it exposes it, and the images that a crash at each moment so far might leave.
    ghost view: { Self → DiskView };

    /// How often it failed.
    ghost faults: { Self → ℕ };

    /// How often it was read.
    ghost reads: { Self → ℕ };

    /// Fills `into` with the bytes from `at` on. After an error `into` may hold anything.
    fn read_at(&mut self, at: u64, into: &mut [u8]) -> Result<(), Failed>
        requires { at + length into.old ≤ 2 ^ 44 }
        ensures ok { OnOk result (ReadsBack (view self.old) at (length into.old) into.new) }
        ensures same { (view self.new).content ≡ (view self.old).content }
        ensures images { KeepsImages (view self.old) (view self.new) }
        ensures time { Passes (view self.old) (view self.new) }
        ensures cause { CountsFaults (faults self.old) (faults self.new) result }
        ensures reads { ReadsAtMost 1 (reads self.old) (reads self.new) };

    /// Writes these bytes from `at` on. Until a sync, and after an error, the range may hold anything.
    fn write_at(&mut self, at: u64, bytes: &[u8]) -> Result<(), Failed>
        requires { at + length bytes.now ≤ 2 ^ 44 }
        ensures ok { OnOk result (Writes (view self.old) (view self.new) at bytes.now) }
        ensures err { OnErr result (Garbles (view self.old) (view self.new) at (length bytes.now)) }
        ensures images { TearsRange (view self.old) (view self.new) at (length bytes.now) result }
        ensures time { Passes (view self.old) (view self.new) }
        ensures cause { CountsFaults (faults self.old) (faults self.new) result }
        ensures reads { reads self.new ≡ reads self.old };

    /// Waits until all that was written is durable. After an error the disk reads as before, and may be durable or not.
    fn sync(&mut self) -> Result<(), Failed>
        ensures ok { OnOk result (IsDurable (view self.new)) }
        ensures same { (view self.new).content ≡ (view self.old).content }
        ensures images { KeepsImages (view self.old) (view self.new) }
        ensures time { Passes (view self.old) (view self.new) }
        ensures cause { CountsFaults (faults self.old) (faults self.new) result }
        ensures reads { reads self.new ≡ reads self.old };

    /// What the disk reads as is one of its images.
    ghost leaves_content: { (d : Self) → IfSome (view d).content (Images (view d)) };

    /// An image holds bytes.
    ghost leaves_bytes: { (d : Self) (m : ℕ) (c : Image) → (view d).images_at m c → HoldsBytes c };
}

/// Writes these bytes from `at` on and syncs: one write and one sync.
pub fn write_through<D: Disk>(disk: &mut D, at: u64, bytes: &[u8]) -> Result<(), Failed>
    requires { at + length bytes.now ≤ 2 ^ 44 }
    ensures ok { WritesThrough (D.view disk.old) (D.view disk.new) at bytes.now result }
    ensures cause { CountsFaults (D.faults disk.old) (D.faults disk.new) result }
    ensures reads { D.reads disk.new ≡ D.reads disk.old }
{
    disk.write_at(at, bytes)?;
    disk.sync()?;
    Ok(())
}
