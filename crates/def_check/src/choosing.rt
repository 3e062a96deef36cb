//! Which of several blocks a check blames, and a level that meets what is asked before. Each is the contract of a function that
//! does nothing.

ghost use Rattle.std.specs.Prelude.{◌≡◌, Err};
ghost use Rattle.def_check.specs.Checked.{checked};
ghost use Rattle.def_check.specs.Told.{MayBeCounted};
ghost use Rattle.def_check.specs.Worked.{twice_erased, two_told};

/// Where two blocks of an array are none of entries, the one that comes first in the array is blamed, whichever has the lower
/// number.
pub fn the_first_bad_block_is_blamed()
    ensures damaged { (checked (twice_erased 7 9) ≡ Err 7) × (checked (twice_erased 9 7) ≡ Err 9) }
{}

/// A level of two arrays may be counted, also where one has a copy of an entry of the other.
pub fn a_level_of_two_arrays_may_be_counted()
    ensures ok { MayBeCounted two_told }
{}
