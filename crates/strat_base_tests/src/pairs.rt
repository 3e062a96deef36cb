//! A buffer of pairs, filled and emptied.

use std::test::Fail;
use strat_base::{PairBuf, key_ok, value_ok};

/// Whether a pair may be one and there is room for it; then it is added.
fn adds(pairs: &mut PairBuf, key: &[u8], value: &[u8]) -> bool {
    if pairs.len() >= 256 || !key_ok(key) || !value_ok(value) {
        return false;
    }
    pairs.push(key, value);
    true
}

/// Whether there is such a pair.
fn holds(pairs: &PairBuf, i: usize, key: &[u8], value: &[u8]) -> bool {
    i < pairs.len() && pairs.key(i) == key && pairs.value(i) == value
}

/// Whether 256 pairs of the largest sizes are added.
fn adds_largest(pairs: &mut PairBuf) -> bool {
    for n in 0..=255u8 {
        if !adds(pairs, &[n; 255], &[255 - n; 1024]) {
            return false;
        }
    }
    true
}

/// Whether there are 256 pairs of the largest sizes.
fn holds_largest(pairs: &PairBuf) -> bool {
    for n in 0..=255u8 {
        if !holds(pairs, n as usize, &[n; 255], &[255 - n; 1024]) {
            return false;
        }
    }
    pairs.len() == 256
}

/// Whether a buffer that is cleared takes two other pairs.
fn begins_anew(pairs: &mut PairBuf) -> bool {
    pairs.clear();
    pairs.is_empty() && adds(pairs, b"a", b"") && adds(pairs, b"bc", b"12")
}

#[test]
fn a_buffer_holds_256_largest_pairs_and_forgets_them(rt: HostRuntime) -> Result<(), Fail> {
    let mut pairs = PairBuf::new(rt.alloc())?;
    assert!(rt; pairs.is_empty());
    assert!(rt; adds_largest(&mut pairs) && holds_largest(&pairs));
    assert!(rt; begins_anew(&mut pairs) && pairs.len() == 2);
    assert!(rt; holds(&pairs, 0, b"a", b"") && holds(&pairs, 1, b"bc", b"12"));
    Ok(())
}
