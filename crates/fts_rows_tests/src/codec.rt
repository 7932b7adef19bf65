//! Numbers at the front of some bytes.
use fts_codec::{put_u8, put_u16, put_u32, put_u64, u16_at, u32_at, u64_at};

#[test]
fn numbers_are_read_at_their_ends(rt: HostRuntime) {
    assert!(rt; matches!(u16_at(&[0, 0]), Some((0, []))));
    assert!(rt; matches!(u16_at(&[1, 2, 3]), Some((258, [3]))));
    assert!(rt; matches!(u16_at(&[255; 2]), Some((u16::MAX, []))));
    assert!(rt; matches!(u32_at(&[0; 4]), Some((0, []))));
    assert!(rt; matches!(u32_at(&[1, 2, 3, 4, 5]), Some((16_909_060, [5]))));
    assert!(rt; matches!(u32_at(&[255; 4]), Some((u32::MAX, []))));
    assert!(rt; matches!(u64_at(&[0; 8]), Some((0, []))));
    assert!(rt;
        matches!(
            u64_at(&[0, 0, 0, 0, 1, 2, 3, 4, 5]),
            Some((16_909_060, [5]))
        )
    );
    assert!(rt; matches!(u64_at(&[255; 8]), Some((u64::MAX, []))));
}

#[test]
fn a_number_that_is_cut_is_none(rt: HostRuntime) {
    assert!(rt; u16_at(&[255]).is_none());
    assert!(rt; u32_at(&[255; 3]).is_none());
    assert!(rt; u64_at(&[255; 7]).is_none());
}

/// Whether numbers of one, two and four bytes are written one behind another.
fn are_written() -> bool {
    let mut buf = [9; 9];
    let first = put_u8(&mut buf, 255);
    let second = put_u16(&mut buf[1..], 258);
    let third = put_u32(&mut buf[3..], 0);
    let fourth = put_u16(&mut buf[7..], u16::MAX);
    [first, second, third, fourth] == [1, 2, 4, 2] && buf == [255, 1, 2, 0, 0, 0, 0, 255, 255]
}

/// Whether numbers are written over others, and leave what stands behind them.
fn are_written_over() -> bool {
    let mut buf = [255; 9];
    let long = put_u64(&mut buf, 16_909_060);
    let half = put_u32(&mut buf, u32::MAX);
    let over = buf;
    let byte = put_u8(&mut buf, 0);
    [long, half, byte] == [8, 4, 1]
        && over == [255, 255, 255, 255, 1, 2, 3, 4, 255]
        && buf == [0, 255, 255, 255, 1, 2, 3, 4, 255]
}

fn is_greatest_written() -> bool {
    let mut buf = [9; 9];
    let size = put_u64(&mut buf, u64::MAX);
    size == 8 && buf == [255, 255, 255, 255, 255, 255, 255, 255, 9]
}

#[test]
fn numbers_are_written_at_their_ends(rt: HostRuntime) {
    assert!(rt; are_written());
    assert!(rt; is_greatest_written());
    assert!(rt; are_written_over());
}
