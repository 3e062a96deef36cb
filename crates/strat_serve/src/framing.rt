//! Frames of drawn changes, written into a buffer of a fixed size.

ghost use Rattle.std.specs.Prelude.{◌≡◌, ◌+◌, ◌/◌, ◌≤◌, ◌<◌, ◌∷◌, ◌++◌, length};
ghost use Rattle.std.specs.Fmt.{decimal};
ghost use Rattle.strat_base.specs.Numbers.{be};
ghost use Rattle.strat_model.specs.Spelling.{command_body, counted};
ghost use Rattle.strat_model.specs.Stream.{frame};
ghost use Rattle.def_meaning.specs.StateTable.{request_for};
ghost use Rattle.def_texts.specs.Workload.{last_digit, drawn_key};
ghost use Rattle.strat_base.specs.Change.{Put, Delete};
ghost use Rattle.strat_serve.specs.Generated.{picked_change};

use crate::drawing::Pick;
use arrayvec::ArrayVec;
use itoa::Buffer;
use strat_base::{put_u16, put_u32};

/// Bytes of the longest frame: a put whose value has ten digits.
pub(crate) const FRAME_MAX: usize = 31;

/// Adds bytes at the end of a frame.
fn put(out: &mut ArrayVec<u8, FRAME_MAX>, bytes: &[u8])
    requires { length out.old.items + length bytes.now ≤ 31 }
    ensures ok { out.new.items ≡ out.old.items ++ bytes.now }
    ensures len { length out.new.items ≡ length out.old.items + length bytes.now }
{
    out.try_extend_from_slice(bytes).unwrap();
}

/// Adds a number in four bytes.
fn put_number(out: &mut ArrayVec<u8, FRAME_MAX>, n: u32)
    requires { length out.old.items + 4 ≤ 31 }
    ensures ok { out.new.items ≡ out.old.items ++ be 4 n }
    ensures len { length out.new.items ≡ length out.old.items + 4 }
{
    let mut number = [0; 4];
    put_u32(&mut number, 0, n);
    put(out, &number);
}

/// Adds a length in two bytes and so many bytes.
fn put_counted(out: &mut ArrayVec<u8, FRAME_MAX>, bytes: &[u8])
    requires { length out.old.items + 2 + length bytes.now ≤ 31 }
    ensures ok { out.new.items ≡ out.old.items ++ counted bytes.now }
    ensures len { length out.new.items ≡ length out.old.items + 2 + length bytes.now }
{
    let mut number = [0; 2];
    put_u16(&mut number, 0, bytes.len() as u16);
    put(out, &number);
    put(out, bytes);
}

/// Begins a frame of a body with so many bytes, in place of what the buffer holds: its tag, the
/// opcode and the version.
fn begin(out: &mut ArrayVec<u8, FRAME_MAX>, body_len: u32, tag: u32, opcode: u8, version: u32)
    ensures ok { out.new.items ≡ be 4 body_len ++ (be 4 tag ++ (opcode ∷ be 4 version)) }
    ensures len { length out.new.items ≡ 13 }
{
    out.clear();
    put_number(out, body_len);
    put_number(out, tag);
    put(out, &[opcode]);
    put_number(out, version);
}

/// The last decimal digit of a number.
fn last_digit(n: u32) -> u8
    ensures { result ≡ last_digit n }
{
    b'0' + (n % 10) as u8
}

/// Adds a drawn key after its length.
fn put_key(out: &mut ArrayVec<u8, FRAME_MAX>, key: u32)
    requires { length out.old.items + 6 ≤ 31 }
    ensures ok { out.new.items ≡ out.old.items ++ counted (drawn_key key) }
    ensures len { length out.new.items ≡ length out.old.items + 6 }
{
    put_counted(
        out,
        &[
            b'k',
            last_digit(key / 100),
            last_digit(key / 10),
            last_digit(key),
        ],
    );
}

/// Writes the frame of a put, whose value is the change's number.
fn write_put(out: &mut ArrayVec<u8, FRAME_MAX>, i: u32, version: u32, key: u32)
    ensures { out.new.items ≡ frame (command_body i (request_for (Put version (drawn_key key)
        (decimal i)))) }
{
    let mut digits = Buffer::new();
    let value = digits.format(i).as_bytes();
    begin(out, 17 + value.len() as u32, i, 1, version);
    put_key(out, key);
    put_counted(out, value);
}

/// Writes the frame of a deletion.
fn write_delete(out: &mut ArrayVec<u8, FRAME_MAX>, i: u32, version: u32, key: u32)
    ensures { out.new.items
        ≡ frame (command_body i (request_for (Delete version (drawn_key key)))) }
{
    begin(out, 15, i, 2, version);
    put_key(out, key);
}

/// Writes the frame of the i-th change, as it was drawn, in place of what the buffer holds.
pub(crate) fn write_frame(out: &mut ArrayVec<u8, FRAME_MAX>, i: u32, pick: Pick)
    ensures ok { out.new.items ≡ frame (command_body i (request_for (picked_change i pick))) }
    ensures len { 0 < length out.new.items }
{
    match pick {
        Pick::Put { version, key } => write_put(out, i, version, key),
        Pick::Delete { version, key } => write_delete(out, i, version, key),
        Pick::Clone { version } => begin(out, 9, i, 4, version),
    }
}
