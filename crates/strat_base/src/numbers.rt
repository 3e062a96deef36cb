//! Numbers in bytes, the highest byte first.

ghost use Rattle.std.specs.Prelude.{◌≡◌, ◌+◌, ◌≤◌, length};
ghost use Rattle.strat_base.specs.Numbers.{be, number_at, placed};

use byteorder::{BigEndian, ByteOrder};

/// The byte at `at`, or `None` where the bytes end before it.
#[tactic(auto, unfolding(crate::specs::Numbers::number))]
pub fn get_u8(bytes: &[u8], at: usize) -> Option<u8>
    ensures { result ≡ number_at 1 bytes.now at }
{
    if at >= bytes.len() {
        return None;
    }
    Some(bytes[at])
}

/// The number in the two bytes from `at` on, or `None` where fewer follow.
#[tactic(auto, unfolding(crate::specs::Numbers::number))]
pub fn get_u16(bytes: &[u8], at: usize) -> Option<u16>
    ensures { result ≡ number_at 2 bytes.now at }
{
    if bytes.len() < 2 || at > bytes.len() - 2 {
        return None;
    }
    Some(BigEndian::read_u16(&bytes[at..]))
}

/// The number in the four bytes from `at` on, or `None` where fewer follow.
#[tactic(auto, unfolding(crate::specs::Numbers::number))]
pub fn get_u32(bytes: &[u8], at: usize) -> Option<u32>
    ensures { result ≡ number_at 4 bytes.now at }
{
    if bytes.len() < 4 || at > bytes.len() - 4 {
        return None;
    }
    Some(BigEndian::read_u32(&bytes[at..]))
}

/// The number in the eight bytes from `at` on, or `None` where fewer follow.
#[tactic(auto, unfolding(crate::specs::Numbers::number))]
pub fn get_u64(bytes: &[u8], at: usize) -> Option<u64>
    ensures { result ≡ number_at 8 bytes.now at }
{
    if bytes.len() < 8 || at > bytes.len() - 8 {
        return None;
    }
    Some(BigEndian::read_u64(&bytes[at..]))
}

/// Writes a number into the two bytes from `at` on.
#[tactic(auto, unfolding(crate::specs::Numbers::be))]
pub fn put_u16(into: &mut [u8], at: usize, n: u16)
    requires { at + 2 ≤ length into.old }
    ensures { into.new ≡ placed into.old at (be 2 n) }
{
    BigEndian::write_u16(&mut into[at..], n);
}

/// Writes a number into the four bytes from `at` on.
#[tactic(auto, unfolding(crate::specs::Numbers::be))]
pub fn put_u32(into: &mut [u8], at: usize, n: u32)
    requires { at + 4 ≤ length into.old }
    ensures { into.new ≡ placed into.old at (be 4 n) }
{
    BigEndian::write_u32(&mut into[at..], n);
}

/// Writes a number into the eight bytes from `at` on.
#[tactic(auto, unfolding(crate::specs::Numbers::be))]
pub fn put_u64(into: &mut [u8], at: usize, n: u64)
    requires { at + 8 ≤ length into.old }
    ensures { into.new ≡ placed into.old at (be 8 n) }
{
    BigEndian::write_u64(&mut into[at..], n);
}
