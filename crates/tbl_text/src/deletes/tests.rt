use super::*;
use std::test::Fail;

#[test]
fn keys_come_in_the_order_of_their_lines(rt: HostRuntime) -> Result<(), Fail> {
    let cases: [(&[u8], &[u32]); 6] = [
        (b"", &[]),
        (b"5|\n7\n", &[5, 7]),
        (b"5|\r\n7\r\n5", &[5, 7, 5]),
        (b"4294967295\r", &[4_294_967_295]),
        (b"0000000001|", &[1]),
        (b"3\n2\n1", &[3, 2, 1]),
    ];
    for (bytes, keys) in cases {
        let found = delete_keys_of(rt.alloc(), bytes)?;
        assert_eq!(rt; found.as_slice(), keys, "of {bytes:?}");
    }
    Ok(())
}

#[test]
fn the_first_bad_line_is_named(rt: HostRuntime) {
    let cases: [(&[u8], u32); 12] = [
        (b"0", 1),
        (b"4294967296", 1),
        (b"\n", 1),
        (b"|", 1),
        (b"5||", 1),
        (b"5 ", 1),
        (b"-5", 1),
        (b"5.0", 1),
        (b"00000000001", 1),
        (b"1|\nx\ny\n", 2),
        (b"1\n2\n\n", 3),
        (b"1\n2\n3|4", 3),
    ];
    for (bytes, line) in cases {
        match delete_keys_of(rt.alloc(), bytes) {
            Err(fault) => assert_eq!(rt; fault, KeyFault::Line(line), "of {bytes:?}"),
            Ok(_) => assert!(rt; false, "{bytes:?} is read"),
        }
    }
}
