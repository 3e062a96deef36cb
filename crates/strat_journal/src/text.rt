//! Records in the buffer of a journal.

ghost use Rattle.std.specs.Prelude.{◌≡◌, ◌≤◌, ◌<◌, ◌+◌, ◌-◌, [], ◌∷◌, ◌++◌, length, take, drop, IsTrue, vec_len};
ghost use Rattle.strat_base.specs.Change.{is_lawful, change_bytes};
ghost use Rattle.strat_base.specs.ChangeView.{change_of};
ghost use Rattle.strat_base.specs.Numbers.{placed};
ghost use Rattle.def_bytes.specs.Layout.{open_flag};

use def_bytes::OPEN;
use strat_base::{Change, put_change};

/// Writes a record and a closed gate after it into the buffer, and gives the offset of that gate.
pub(crate) fn put_record(bytes: &mut Vec<u8>, at: usize, change: &Change<'_>) -> usize
    requires fits { IsTrue (is_lawful (change_of change.now)) }
    requires room { at + 2 + length (change_bytes (change_of change.now)) ≤ vec_len bytes.old }
    ensures end { result ≡ at + 1 + length (change_bytes (change_of change.now)) }
    ensures ok { bytes.new.items
        ≡ placed bytes.old.items at (open_flag ∷ (change_bytes (change_of change.now) ++ 0 ∷ [])) }
{
    bytes[at] = OPEN;
    let end = put_change(change, bytes, at + 1);
    bytes[end] = 0;
    end
}

/// Copies bytes over the front of others.
fn put_front(into: &mut [u8], bytes: &[u8])
    requires room { length bytes.now ≤ length into.old }
    ensures ok { into.new ≡ placed into.old 0 bytes.now }
{
    into[..bytes.len()].copy_from_slice(bytes);
}

/// Writes records and a closed gate after them over the front of the buffer.
pub(crate) fn put_records(into: &mut [u8], records: &[u8])
    requires room { length records.now < length into.old }
    ensures ok { into.new ≡ placed into.old 0 (records.now ++ 0 ∷ []) }
{
    put_front(into, records);
    into[records.len()] = 0;
}

/// Copies a part of the buffer over its front.
fn copy_to_front(bytes: &mut [u8], from: usize, to: usize)
    requires fits { (from ≤ to) × (to ≤ length bytes.old) }
    ensures ok { bytes.new ≡ placed bytes.old 0 (take (to - from) (drop from bytes.old)) }
{
    bytes.copy_within(from..to, 0);
}

/// Moves a part of the buffer to its front, and writes a closed gate after it.
#[tactic(auto, using(crate::proofs::TextLemmas::part_then_gate))]
pub(crate) fn move_to_front(bytes: &mut [u8], from: usize, to: usize)
    requires fits { (from ≤ to) × (to < length bytes.old) }
    ensures ok { bytes.new
        ≡ placed bytes.old 0 (take (to - from) (drop from bytes.old) ++ 0 ∷ []) }
{
    copy_to_front(bytes, from, to);
    bytes[to - from] = 0;
}

/// The batch's records after the first one's gate, and the closed gate after them.
pub(crate) fn behind_gate(bytes: &[u8], end: usize, len: usize) -> &[u8]
    requires fits { (end ≤ len) × (len < length bytes.now) }
    ensures ok { result.now ≡ take (len - end) (drop (end + 1) bytes.now) }
    ensures len { length result.now ≡ len - end }
{
    &bytes[end + 1..len + 1]
}
