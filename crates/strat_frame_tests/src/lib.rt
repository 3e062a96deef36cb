//! Worked examples in bytes of frames, commands and replies, which say whether the definitions mean what they
//! should: the clauses say only that the calls follow them.
#![tactic(auto)]

#[cfg(test)]
mod commands;
#[cfg(test)]
mod frames;
#[cfg(test)]
mod hex;
#[cfg(test)]
mod replies;
