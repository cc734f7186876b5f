use crate::{Kind, Rights, Role, TemplateRefusal, meet, put_template, read_template, rights_text};

#[test]
fn each_test_of_reading_has_its_refusal(rt: HostRuntime) {
    let table: [(&[u8], TemplateRefusal, u8); 4] = [
        (
            b"\x06\x09\x04\x00\x7f\x00\x07\x03\x01\x02\x01",
            TemplateRefusal::Form,
            1,
        ),
        (
            b"\x06\x09\x04\x00\x7f\x00\x07\x03\x01\x02\x02\x53\x01\xc3",
            TemplateRefusal::UnknownType,
            2,
        ),
        (
            b"\x06\x09\x04\x00\x7f\x00\x07\x03\x01\x02\x01\x53\x02\xc3\x00",
            TemplateRefusal::Width,
            3,
        ),
        (
            b"\x06\x09\x04\x00\x7f\x00\x07\x03\x01\x02\x01\x53\x01\xc3\x00",
            TemplateRefusal::Form,
            1,
        ),
    ];
    for (content, refusal, number) in table {
        assert!(rt; matches!(read_template(content), Err(found) if found == refusal));
        assert_eq!(rt; refusal.number(), number);
    }
}

/// The templates of a founding certificate and of a verifier's certificate, and the two other roles.
#[test]
fn a_template_is_read_and_written(rt: HostRuntime) {
    let table: [(&[u8; 14], Role, u64, &[u8]); 4] = [
        (
            b"\x06\x09\x04\x00\x7f\x00\x07\x03\x01\x02\x01\x53\x01\xc3",
            Role::Cvca,
            3,
            b"03",
        ),
        (
            b"\x06\x09\x04\x00\x7f\x00\x07\x03\x01\x02\x01\x53\x01\x83",
            Role::Domestic,
            3,
            b"03",
        ),
        (
            b"\x06\x09\x04\x00\x7f\x00\x07\x03\x01\x02\x01\x53\x01\x43",
            Role::Foreign,
            3,
            b"03",
        ),
        (
            b"\x06\x09\x04\x00\x7f\x00\x07\x03\x01\x02\x01\x53\x01\x01",
            Role::Terminal,
            1,
            b"01",
        ),
    ];
    for (content, role, bits, text) in table {
        let Ok(template) = read_template(content) else {
            assert!(rt; false);
            return;
        };
        assert_eq!(rt; template.kind, Kind::Inspection);
        assert_eq!(rt; template.role, role);
        assert_eq!(rt; template.rights.bits(), bits);
        assert_eq!(rt;
            rights_text(template.kind, template.rights).as_slice(),
            text
        );
        assert_eq!(rt; put_template(template), *content);
    }
}

#[test]
fn a_chain_grants_what_all_of_it_has(rt: HostRuntime) {
    let (Some(authority), Some(terminal)) = (Rights::from_bits(3), Rights::from_bits(1)) else {
        assert!(rt; false);
        return;
    };
    assert_eq!(rt; meet(authority, terminal).bits(), 1);
    assert!(rt; Rights::from_bits(64).is_none());
}
