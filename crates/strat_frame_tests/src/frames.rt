//! Streams cut at every place.

ghost use Rattle.std.specs.Prelude.{◌≡◌, ◌≤◌, length, IfSome};
ghost use Rattle.strat_base.specs.Numbers.{number};

use crate::hex::hex;
use std::alloc::Global;
use std::test::Fail;
use strat_base::NoMemory;
use strat_frame::{Deframer, Next};

/// A stream, the bodies that its frames have, and what is found behind them.
#[derive(Drop)]
struct Stream {
    bytes: &'static str,
    bodies: &'static [&'static str],
    end: Next,
    held: usize,
}

const STREAMS: [Stream; 9] = [
    Stream {
        bytes: "",
        bodies: &[],
        end: Next::NotYet,
        held: 0,
    },
    Stream {
        bytes: "0000000f 00000007 01 00000000 0001 61 0001 31
                0000000c 00000008 03 00000000 0001 61
                0000000c 00000009 03 00000000 0001 62",
        bodies: &[
            "00000007 01 00000000 0001 61 0001 31",
            "00000008 03 00000000 0001 61",
            "00000009 03 00000000 0001 62",
        ],
        end: Next::NotYet,
        held: 0,
    },
    Stream {
        bytes: "00000003 aabbcc 00000004 00000009 00000000 00000005 00000001 0a",
        bodies: &["aabbcc", "00000009", "", "00000001 0a"],
        end: Next::NotYet,
        held: 0,
    },
    Stream {
        bytes: "0000000f 00000007 01 00000000 0001 61 0001",
        bodies: &[],
        end: Next::NotYet,
        held: 18,
    },
    Stream {
        bytes: "00000000 000000",
        bodies: &[""],
        end: Next::NotYet,
        held: 3,
    },
    Stream {
        bytes: "00000800 aabbcc",
        bodies: &[],
        end: Next::NotYet,
        held: 7,
    },
    Stream {
        bytes: "00000801",
        bodies: &[],
        end: Next::TooLong { length: 2049 },
        held: 4,
    },
    Stream {
        bytes: "00000004 00000009 00000801 00000000",
        bodies: &["00000009"],
        end: Next::TooLong { length: 2049 },
        held: 8,
    },
    Stream {
        bytes: "ffffffff aabbcc",
        bodies: &[],
        end: Next::TooLong { length: 4294967295 },
        held: 7,
    },
];

/// Whether a frame is whole and was taken, or nothing where its body is another.
fn take(deframer: &mut Deframer, body: &[u8]) -> Option<bool> {
    if deframer.next() != Next::Frame {
        return Some(false);
    }
    if deframer.body() != body {
        return None;
    }
    Some(true)
}

/// Feeds a piece and takes the frames that are whole: how many of these bodies they have, or nothing where
/// one has another.
fn hear(deframer: &mut Deframer, piece: &[u8], bodies: &[Vec<u8>]) -> Option<usize>
    ensures { IfSome result (λ n. n ≤ length bodies.now) }
{
    if piece.len() > deframer.room() {
        return None;
    }
    deframer.feed(piece);
    for (n, body) in bodies.iter().enumerate() {
        if !take(deframer, body)? {
            return Some(n);
        }
    }
    Some(bodies.len())
}

/// Whether this is found behind the last frame, and found again.
fn ends(deframer: &mut Deframer, stream: &Stream) -> bool {
    deframer.next() == stream.end && deframer.held() == stream.held && deframer.next() == stream.end
}

/// Whether a stream is heard in two pieces.
fn hears_in_two(
    deframer: &mut Deframer,
    stream: &Stream,
    front: &[u8],
    back: &[u8],
    bodies: &[Vec<u8>],
) -> bool {
    let Some(n) = hear(deframer, front, bodies) else {
        return false;
    };
    let Some(m) = hear(deframer, back, &bodies[n..]) else {
        return false;
    };
    m == bodies.len() - n && ends(deframer, stream)
}

/// Whether a stream is heard byte by byte.
fn hears_by_bytes(
    deframer: &mut Deframer,
    stream: &Stream,
    bytes: &[u8],
    bodies: &[Vec<u8>],
) -> bool {
    let mut n = 0;
    for byte in bytes {
        if n > bodies.len() {
            return false;
        }
        let Some(m) = hear(deframer, &[*byte], &bodies[n..]) else {
            return false;
        };
        n += m;
    }
    n == bodies.len() && ends(deframer, stream)
}

/// Whether a stream is heard in two pieces, wherever it is cut.
fn hears_any_cut(
    alloc: Global,
    stream: &Stream,
    bytes: &[u8],
    bodies: &[Vec<u8>],
) -> Result<bool, NoMemory> {
    for cut in 0..=bytes.len() {
        let (front, back) = bytes.split_at(cut);
        let mut deframer = Deframer::new(alloc)?;
        if !hears_in_two(&mut deframer, stream, front, back, bodies) {
            return Ok(false);
        }
    }
    Ok(true)
}

/// The bodies of a stream.
fn bodies_of(alloc: Global, stream: &Stream) -> Result<Vec<Vec<u8>>, NoMemory> {
    let mut bodies = Vec::new(alloc);
    for body in stream.bodies {
        bodies.push(hex(alloc, body)?)?;
    }
    Ok(bodies)
}

/// Whether a stream is heard however it is cut.
fn hears(alloc: Global, stream: &Stream, bytes: &[u8]) -> Result<bool, NoMemory> {
    let bodies = bodies_of(alloc, stream)?;
    let mut deframer = Deframer::new(alloc)?;
    let by_bytes = hears_by_bytes(&mut deframer, stream, bytes, &bodies);
    Ok(by_bytes && hears_any_cut(alloc, stream, bytes, &bodies)?)
}

#[test]
fn frames_are_found_wherever_a_stream_is_cut(rt: HostRuntime) -> Result<(), Fail> {
    for stream in &STREAMS {
        let bytes = hex(rt.alloc(), stream.bytes)?;
        assert!(rt; hears(rt.alloc(), stream, &bytes)?);
    }
    Ok(())
}

/// Whether a new deframer holds all but the last byte of the largest frame, and finds none.
fn holds_a_part(deframer: &mut Deframer) -> bool {
    if !deframer.body().is_empty() || deframer.room() != 6148 {
        return false;
    }
    deframer.feed(&[0, 0, 8, 0]);
    deframer.feed(&[7; 2047]);
    deframer.next() == Next::NotYet && deframer.room() == 4097
}

/// Whether a deframer is filled up, and then finds the largest frame.
fn finds_the_largest(deframer: &mut Deframer) -> bool {
    if deframer.room() != 4097 {
        return false;
    }
    deframer.feed(&[8; 4097]);
    deframer.room() == 0 && deframer.next() == Next::Frame && deframer.held() == 4096
}

/// Whether a deframer has the largest body.
fn has_the_largest(deframer: &Deframer) -> bool {
    let mut want = [7; 2048];
    want[2047] = 8;
    deframer.body() == want.as_slice()
}

#[test]
fn a_deframer_holds_the_largest_frame_and_a_piece(rt: HostRuntime) -> Result<(), Fail> {
    let mut deframer = Deframer::new(rt.alloc())?;
    assert!(rt; holds_a_part(&mut deframer));
    assert!(rt; finds_the_largest(&mut deframer));
    assert!(rt; has_the_largest(&deframer));
    Ok(())
}

/// The length that is told of a frame that is too long: its first four bytes.
fn length_told(deframer: &mut Deframer) -> Option<u32>
    ensures { IfSome result (λ n. n ≡ number 4 deframer.old.held) }
{
    match deframer.next() {
        Next::TooLong { length } => Some(length),
        _ => None,
    }
}

#[test]
fn the_length_of_a_frame_that_is_too_long_is_told(rt: HostRuntime) -> Result<(), Fail> {
    let mut deframer = Deframer::new(rt.alloc())?;
    deframer.feed(&[0, 0, 8, 1]);
    assert!(rt; length_told(&mut deframer) == Some(2049));
    Ok(())
}
