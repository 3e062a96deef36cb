//! How far a promotion is.

use crate::first_pass::Counting;
use crate::input::Input;
use crate::second_pass::Writing;

/// Nothing was read yet; or groups are counted; or they are written, and the first pass took so many entries.
#[derive(Drop)]
pub(crate) enum Stage {
    Begun,
    Counting(Counting<Input>),
    Writing(Writing<Input>, u64),
}
