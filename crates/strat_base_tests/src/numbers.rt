//! Numbers at the edges of the bytes that hold them.

use strat_base::{get_u8, get_u16, get_u32, get_u64, put_u16, put_u32, put_u64};

const BYTES: [u8; 9] = [1, 2, 3, 4, 5, 6, 7, 8, 9];

#[test]
fn one_byte_is_read_up_to_the_end(rt: HostRuntime) {
    for (at, want) in [(0, Some(1)), (8, Some(9)), (9, None), (usize::MAX, None)] {
        assert!(rt; get_u8(&BYTES, at) == want);
    }
    assert!(rt; get_u8(&[], 0).is_none());
}

#[test]
fn two_bytes_are_read_up_to_the_end(rt: HostRuntime) {
    for (at, want) in [
        (0, Some(0x0102)),
        (7, Some(0x0809)),
        (8, None),
        (usize::MAX, None),
    ] {
        assert!(rt; get_u16(&BYTES, at) == want);
    }
    assert!(rt; get_u16(&[1], 0).is_none());
}

#[test]
fn four_bytes_are_read_up_to_the_end(rt: HostRuntime) {
    for (at, want) in [
        (0, Some(0x01020304)),
        (5, Some(0x06070809)),
        (6, None),
        (usize::MAX, None),
    ] {
        assert!(rt; get_u32(&BYTES, at) == want);
    }
    assert!(rt; get_u32(&[255, 255, 255, 255], 0) == Some(u32::MAX));
}

#[test]
fn eight_bytes_are_read_up_to_the_end(rt: HostRuntime) {
    for (at, want) in [
        (0, Some(0x0102030405060708)),
        (1, Some(0x0203040506070809)),
        (2, None),
        (usize::MAX, None),
    ] {
        assert!(rt; get_u64(&BYTES, at) == want);
    }
}

#[test]
fn numbers_are_written_in_their_place(rt: HostRuntime) {
    let mut bytes = [9; 10];
    put_u16(&mut bytes, 0, 0x0102);
    assert!(rt; bytes == [1, 2, 9, 9, 9, 9, 9, 9, 9, 9]);
    put_u32(&mut bytes, 6, 0x03040506);
    assert!(rt; bytes == [1, 2, 9, 9, 9, 9, 3, 4, 5, 6]);
    put_u64(&mut bytes, 1, 0x1011121314151617);
    assert!(rt; bytes == [1, 16, 17, 18, 19, 20, 21, 22, 23, 6]);
    put_u16(&mut bytes, 8, 0);
    assert!(rt; bytes == [1, 16, 17, 18, 19, 20, 21, 22, 0, 0]);
}
