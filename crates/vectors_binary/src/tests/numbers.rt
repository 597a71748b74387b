use wasm_leb::Cursor;

// The numbers at the front of the bytes, by each reader, from a cursor of its own.
fn is_u32(bytes: &[u8], wanted: Option<u32>, at: usize) -> bool {
    let mut cursor = Cursor::new(bytes);
    cursor.u32() == wanted && cursor.at() == at
}

fn is_i32(bytes: &[u8], wanted: Option<i32>, at: usize) -> bool {
    let mut cursor = Cursor::new(bytes);
    cursor.i32() == wanted && cursor.at() == at
}

fn is_i64(bytes: &[u8], wanted: Option<i64>, at: usize) -> bool {
    let mut cursor = Cursor::new(bytes);
    cursor.i64() == wanted && cursor.at() == at
}

fn is_s33(bytes: &[u8], wanted: Option<i64>, at: usize) -> bool {
    let mut cursor = Cursor::new(bytes);
    cursor.s33() == wanted && cursor.at() == at
}

#[test]
fn numbers_at_their_limits(rt: HostRuntime) {
    // The example of the core specification's note on padding, and the greatest and the least of each width.
    assert!(rt; is_u32(&[0xe5, 0x8e, 0x26], Some(624485), 3));
    assert!(rt; is_u32(&[0x83, 0x80, 0x80, 0x80, 0x00, 0x07], Some(3), 5));
    assert!(rt; is_u32(&[0xff, 0xff, 0xff, 0xff, 0x0f], Some(4294967295), 5));
    assert!(rt; is_u32(&[0xff, 0xff, 0xff, 0xff, 0x1f], None, 0));
    assert!(rt; is_u32(&[0x80, 0x80, 0x80, 0x80, 0x80, 0x00], None, 0));
    assert!(rt; is_u32(&[0x80], None, 0));
    assert!(rt; is_i32(&[0xc0, 0xbb, 0x78], Some(-123456), 3));
    assert!(rt; is_i32(&[0xfe, 0x7f], Some(-2), 2));
    assert!(rt; is_i32(&[0x80, 0x80, 0x80, 0x80, 0x78], Some(-2147483648), 5));
    assert!(rt; is_i32(&[0xff, 0xff, 0xff, 0xff, 0x07], Some(2147483647), 5));
    assert!(rt; is_i32(&[0xff, 0xff, 0xff, 0xff, 0x08], None, 0));
    assert!(rt; is_i32(&[0xff, 0xff, 0xff, 0xff, 0x4f], None, 0));
    let least = &[0x80, 0x80, 0x80, 0x80, 0x80, 0x80, 0x80, 0x80, 0x80, 0x7f];
    assert!(rt; is_i64(least, Some(-9223372036854775808), 10));
    let padded = &[0x80, 0x80, 0x80, 0x80, 0x80, 0x80, 0x80, 0x80, 0x80, 0x00];
    assert!(rt; is_i64(padded, Some(0), 10));
    let bits = &[0x80, 0x80, 0x80, 0x80, 0x80, 0x80, 0x80, 0x80, 0x80, 0x01];
    assert!(rt; is_i64(bits, None, 0));
    assert!(rt; is_s33(&[0xff, 0xff, 0xff, 0xff, 0x0f], Some(4294967295), 5));
    assert!(rt; is_s33(&[0x80, 0x80, 0x80, 0x80, 0x70], Some(-4294967296), 5));
    assert!(rt; is_s33(&[0x80, 0x80, 0x80, 0x80, 0x10], None, 0));
    assert!(rt; is_s33(&[0x70], Some(-16), 1));
}

#[test]
fn names_and_parts(rt: HostRuntime) {
    let mut cursor = Cursor::new(&[0x02, 0xc3, 0xa9, 0x01, 0xc3]);
    assert!(rt; cursor.name() == Some("é"));
    assert!(rt; cursor.at() == 3);
    assert!(rt; cursor.name().is_none());
    assert!(rt; cursor.at() == 3);
    assert!(rt; cursor.take(3).is_none());
    assert!(rt; cursor.byte() == Some(1));
    let mut rest = cursor.part(1).unwrap();
    assert!(rt; rest.at() == 4);
    assert!(rt; rest.take(1) == Some(&[0xc3][..]));
    assert!(rt; rest.byte().is_none());
    assert!(rt; cursor.at() == 5);
}
