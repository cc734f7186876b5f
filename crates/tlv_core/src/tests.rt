use crate::{Tag, TlvRefusal, next_object, object_head};

#[test]
fn each_step_of_reading_has_its_refusal(rt: HostRuntime) {
    let table: [(&[u8], TlvRefusal, u8); 6] = [
        (b"\x42\x82\x00\x0bDECVCA00001", TlvRefusal::BadLength, 3),
        (b"\x42\x81\x0bDECVCA00001", TlvRefusal::BadLength, 3),
        (b"\x42\x0bDECVCA0000", TlvRefusal::Truncated, 1),
        (b"\x42\x83\x00\x01\x00", TlvRefusal::LongLength, 4),
        (b"\x5f\x1e\x00", TlvRefusal::BadTag, 2),
        (b"", TlvRefusal::Truncated, 1),
    ];
    for (bytes, refusal, number) in table {
        assert!(rt; matches!(next_object(bytes), Err(found) if found == refusal));
        assert_eq!(rt; refusal.number(), number);
    }
}

#[test]
fn an_object_is_read_up_to_its_end(rt: HostRuntime) {
    let Ok((tag, content, rest)) = next_object(b"\x42\x0bDECVCA00001\x7f\x49") else {
        assert!(rt; false);
        return;
    };
    assert_eq!(rt; tag, 0x42);
    assert_eq!(rt; content, b"DECVCA00001".as_slice());
    assert_eq!(rt; rest, b"\x7f\x49".as_slice());
}

/// Heads of the founding certificate and its parts, and one of each longer form.
#[test]
fn the_length_takes_the_shortest_form(rt: HostRuntime) {
    let table: [(Tag, u64, &[u8]); 5] = [
        (0x42, 11, b"\x42\x0b"),
        (0x7f4e, 0x6d, b"\x7f\x4e\x6d"),
        (0x7f21, 0xb3, b"\x7f\x21\x81\xb3"),
        (0x65, 255, b"\x65\x81\xff"),
        (0x65, 256, b"\x65\x82\x01\x00"),
    ];
    for (tag, length, bytes) in table {
        assert_eq!(rt; object_head(tag, length).as_slice(), bytes);
    }
}
