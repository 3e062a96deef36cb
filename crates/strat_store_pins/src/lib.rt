//! What the definitions of open cursors, of what commands leave of them and of what they may be told compute on examples.
//! Each is the contract of a function that does nothing.

#![tactic(auto)]

pub mod answering;
pub mod asking;
pub mod cursors;
pub mod keeping;
pub mod leaving;
pub mod making;
pub mod opening;
pub mod publishing;
pub mod reading;
pub mod serving;
pub mod settling;
pub mod staging;
pub mod telling;
pub mod untouched;
