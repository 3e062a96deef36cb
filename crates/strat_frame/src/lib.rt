//! Frames on a stream, and the commands and replies in their bodies.
//!
//! A frame is a length in four bytes, highest byte first, and so many bytes of body. A command's body:
//!
//! | Offset | Bytes | Field |
//! |---|---|---|
//! | 0 | 4 | tag, chosen by the client and returned with the reply |
//! | 4 | 1 | opcode |
//! | 5 | | the command's fields |
//!
//! A reply's body has a status byte in the opcode's place. A field of bytes is a length in two bytes and
//! so many bytes. Putting `a` = `1` at version 0 under tag 7 is
//! `0000000f 00000007 01 00000000 0001 61 0001 31`, and its reply `00000005 00000007 00`.
#![tactic(auto)]

mod buffer;
mod commands;
mod deframer;
mod fields;
pub mod laws;
mod replies;
mod sizes;

pub use buffer::OutBuf;
pub use commands::{BodyFault, parse_command, write_command};
pub use deframer::{Deframer, Next};
pub use replies::{parse_reply, refusal_status, write_reply};
