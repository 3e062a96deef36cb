//! Bits in words of 64.

ghost use Rattle.std.specs.Prelude.{◌≡◌, ◌<◌, ◌*◌, true, false, length, slice_index_or, slice_set};
ghost use Rattle.strat_filter.specs.Bits.{bits_of};

/// Sets a bit.
#[tactic(auto, using(crate::proofs::WordLemmas::bit_set, crate::proofs::WordLemmas::word_below, crate::proofs::WordLemmas::bit_below))]
pub(crate) fn set_bit(words: &mut [u64], at: u64)
    requires { at < 64 * length words.old }
    ensures ok { bits_of words.new ≡ slice_set (bits_of words.old) at true }
    ensures len { length words.new ≡ length words.old }
{
    words[(at / 64) as usize] |= 1 << (at % 64);
}

/// Whether a bit is set.
#[tactic(auto, using(crate::proofs::WordLemmas::bit_read, crate::proofs::WordLemmas::word_below, crate::proofs::WordLemmas::bit_below))]
pub(crate) fn has_bit(words: &[u64], at: u64) -> bool
    requires { at < 64 * length words.now }
    ensures ok { result ≡ slice_index_or (bits_of words.now) at false }
{
    (words[(at / 64) as usize] >> (at % 64)) & 1 == 1
}
