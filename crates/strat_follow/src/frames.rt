//! Frames of changes with their numbers, and of receipts.

ghost use Rattle.std.specs.Prelude.{◌≡◌, ◌+◌, ◌≤◌, ◌<◌, ◌^◌, [], ◌++◌, length, IsTrue};
ghost use Rattle.strat_base.specs.Change.{is_lawful, change_bytes};
ghost use Rattle.strat_base.specs.ChangeView.{change_of};
ghost use Rattle.def_follow.specs.Following.{cause_byte, fate_byte, receipt_frame};
ghost use Rattle.def_follow.specs.Numbered.{change_frame};
ghost use Rattle.strat_follow.specs.Turns.{fate_seen};

use crate::receipts::Fate;
use strat_base::{Change, change_size, put_change};
use strat_frame::{OutBuf, refusal_status};

/// Bytes of the largest change.
const CHANGE_MAX: usize = 1287;

/// The byte that says what became of a body.
fn fate_byte(fate: Fate) -> u8
    ensures { result ≡ fate_byte (fate_seen fate) }
{
    match fate {
        Fate::Taken => 0,
        Fate::Old => 1,
        Fate::Gap => 2,
        Fate::Malformed => 3,
        Fate::Refused(_) => 4,
    }
}

/// The byte that says why a change was refused, and 0 if none was.
fn cause_byte(fate: Fate) -> u8
    ensures { result ≡ cause_byte (fate_seen fate) }
{
    match fate {
        Fate::Refused(cause) => refusal_status(cause),
        _ => 0,
    }
}

/// Writes the frame of a receipt, in place of what the buffer holds.
pub(crate) fn write_receipt(number: u32, fate: Fate, next: u32, out: &mut OutBuf)
    ensures ok { out.new ≡ receipt_frame (record {
      number = number;
      fate = fate_seen fate;
      next = next;
    }) }
    ensures len { length out.new ≡ 14 }
{
    out.clear();
    out.begin(number);
    out.put_u8(fate_byte(fate));
    out.put_u32(next);
    out.put_u8(cause_byte(fate));
    out.end();
}

/// Writes the bytes of a change into the front of a buffer, and answers these.
fn change_text<'a>(change: &Change<'_>, into: &'a mut [u8; CHANGE_MAX]) -> &'a [u8]
    requires fits { IsTrue (is_lawful (change_of change.now)) }
    ensures ok { result.now ≡ change_bytes (change_of change.now) }
    ensures len { length result.now ≤ 1287 }
{
    let size = change_size(change);
    put_change(change, into, 0);
    &into[..size]
}

/// Writes the frame of a change with its number, in place of what the buffer holds.
pub(crate) fn write_numbered(number: u32, change: &Change<'_>, out: &mut OutBuf)
    requires fits { IsTrue (is_lawful (change_of change.now)) }
    ensures ok { out.new ≡ change_frame (record {
      number = number;
      change = change_of change.now;
    }) }
    ensures len { length out.new ≤ 1295 }
{
    let mut text = [0; CHANGE_MAX];
    out.clear();
    out.begin(number);
    out.put(change_text(change, &mut text));
    out.end();
}
