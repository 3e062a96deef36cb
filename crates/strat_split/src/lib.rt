//! Splits of the versions below a horizon into parts, by the density of what is live in them.
#![tactic(auto)]

mod chains;
mod dealer;
mod gather;
mod hand;
mod hanging;
pub mod laws;
pub mod parts;
mod place;
mod shares;
mod split;
mod survey;
mod taken;
mod waiting;

pub use dealer::Dealer;
pub use hanging::Hanging;
pub use split::plan;
pub use taken::takes;
