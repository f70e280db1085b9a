// Bits of a bitmap.
use crate::has_bit;

#[test]
fn tells_bits(rt: HostRuntime) {
    let bitmap = [0b0000_0001, 0b1000_0000];
    assert!(rt; has_bit(&bitmap, 0));
    assert!(rt; !has_bit(&bitmap, 1));
    assert!(rt; has_bit(&bitmap, 15));
    assert!(rt; !has_bit(&bitmap, 16));
}
