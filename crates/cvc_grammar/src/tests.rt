// What no clause says: that the definitions mean the worked certificates and real key sizes, and that the calls find
// memory.
mod requests;
mod texts;

ghost use Rattle.std.specs.Prelude.{◌<◌};

use self::texts::{FOUNDING, ON_256_BITS, ON_521_BITS, VERIFIER, WITH_RSA};
use crate::{
    Cert, CertView, CvcRefusal, ObjectFault, ReadCvc, finish_cert, read_cert, view_cert,
    write_body, write_cert,
};
use chat_rights::{Role, TemplateRefusal};
use cv_dates::DateRefusal;
use eac_base::Octets;
use holder_reference::RefRefusal;
use signature_provider::Algorithm;
use std::alloc::Global;
use std::process::Abort;
use std::test::Fail;
use tlv_core::TlvRefusal;

/// Both readers refuse the bytes so.
fn is_refused(rt: &impl Abort, alloc: Global, bytes: &[u8], refusal: CvcRefusal, number: u8) {
    assert!(rt;
        matches!(view_cert(bytes), Err(e) if e == refusal),
        "{refusal:?}"
    );
    assert!(rt; matches!(read_cert(alloc, bytes), Err(ReadCvc::Refused(e)) if e == refusal));
    assert_eq!(rt; refusal.number(), number);
}

/// No object can be read there.
pub(crate) fn no_object(offset: u64, fault: TlvRefusal) -> CvcRefusal {
    CvcRefusal::Object {
        offset,
        fault: ObjectFault::Tlv(fault),
    }
}

/// The object there has another tag.
pub(crate) fn other_tag(offset: u64) -> CvcRefusal {
    CvcRefusal::Object {
        offset,
        fault: ObjectFault::OtherTag,
    }
}

#[test]
fn the_founding_certificate_lies_in_its_bytes(rt: HostRuntime) {
    let bytes = FOUNDING.as_slice();
    let Ok(view) = view_cert(bytes) else {
        assert!(rt; false);
        return;
    };
    assert_eq!(rt; view.whole, bytes);
    assert_eq!(rt; view.body, &bytes[4..116]);
    assert_eq!(rt; view.signature, &bytes[119..]);
    assert_eq!(rt; view.authority.as_slice(), b"DECVCA00001".as_slice());
    assert_eq!(rt; view.holder.as_slice(), b"DECVCA00001".as_slice());
    assert_eq!(rt; view.key.algorithm, Algorithm { arc: 2, last: 3 });
    assert_eq!(rt; view.key.domain, &bytes[39..54]);
    assert_eq!(rt; view.key.point, &bytes[56..64]);
    assert_eq!(rt; view.cofactor, &bytes[64..67]);
    assert_eq!(rt; view.template.role, Role::Cvca);
    assert_eq!(rt; view.template.rights.bits(), 3);
    assert_eq!(rt; view.from.number(), 8_766);
    assert_eq!(rt; view.until.number(), 9_862);
    assert!(rt; view.extensions.is_none());
}

#[test]
fn a_certificate_without_domain_has_a_body_of_96_bytes(rt: HostRuntime) {
    let Ok(view) = view_cert(VERIFIER) else {
        assert!(rt; false);
        return;
    };
    assert_eq!(rt; view.body.len(), 96);
    assert_eq!(rt; view.signature.len(), 64);
    assert_eq!(rt;
        view.key.point,
        b"\x00\x00\x00\x00\x00\x00\x00\x02".as_slice()
    );
    assert!(rt; view.key.domain.is_empty() && view.cofactor.is_empty());
    assert_eq!(rt; view.template.role, Role::Domestic);
    assert_eq!(rt; view.until.number(), 8_856);
}

/// Algorithm, sizes of domain, point and signature.
#[test]
fn keys_of_real_sizes_are_read(rt: HostRuntime) {
    let table: [(&[u8], (u8, u8), usize, usize, usize); 3] = [
        (ON_256_BITS, (2, 3), 203, 65, 64),
        (ON_521_BITS, (2, 5), 408, 133, 132),
        (WITH_RSA, (1, 2), 0, 71, 64),
    ];
    for (bytes, (arc, last), domain, point, signature) in table {
        let Ok(view) = view_cert(bytes) else {
            assert!(rt; false);
            return;
        };
        assert_eq!(rt; view.key.algorithm, Algorithm { arc, last });
        assert_eq!(rt; view.key.domain.len(), domain);
        assert_eq!(rt; view.key.point.len(), point);
        assert_eq!(rt; view.signature.len(), signature);
    }
}

/// The copy has what the view has.
fn is_copy(rt: &impl Abort, cert: &Cert, view: &CertView) {
    let body = &cert.body;
    assert_eq!(rt; body.authority, view.authority);
    assert_eq!(rt; body.holder, view.holder);
    assert_eq!(rt; body.key.algorithm, view.key.algorithm);
    assert_eq!(rt; body.key.domain.as_slice(), view.key.domain);
    assert_eq!(rt; body.key.point.as_slice(), view.key.point);
    assert_eq!(rt; body.key.cofactor.as_slice(), view.cofactor);
    assert_eq!(rt; body.template, view.template);
    assert_eq!(rt; body.from, view.from);
    assert_eq!(rt; body.until, view.until);
    assert_eq!(rt;
        body.extensions.as_ref().map(Octets::as_slice),
        view.extensions
    );
    assert_eq!(rt; cert.signature.as_slice(), view.signature);
}

#[test]
fn what_is_read_is_written_as_it_was(rt: HostRuntime) -> Result<(), Fail> {
    let alloc = rt.alloc();
    let table: [&[u8]; 5] = [FOUNDING, VERIFIER, ON_256_BITS, ON_521_BITS, WITH_RSA];
    for bytes in table {
        let Ok(view) = view_cert(bytes) else {
            return Err(Fail::from("no view"));
        };
        let cert = read_cert(alloc, bytes)?;
        is_copy(&rt, &cert, &view);
        assert_eq!(rt; write_body(alloc, &cert.body)?.as_slice(), view.body);
        assert_eq!(rt; write_cert(alloc, &cert)?.as_slice(), bytes);
        assert_eq!(rt;
            finish_cert(alloc, view.body, view.signature)?.as_slice(),
            bytes
        );
    }
    Ok(())
}

#[test]
fn a_cut_certificate_is_refused_at_its_first_byte(rt: HostRuntime) {
    let alloc = rt.alloc();
    let bytes = FOUNDING.as_slice();
    for length in 0..bytes.len() {
        is_refused(
            &rt,
            alloc,
            &bytes[..length],
            no_object(0, TlvRefusal::Truncated),
            2,
        );
    }
}

/// The founding certificate with this byte in that place.
fn spoilt(place: usize, byte: u8) -> [u8; 183]
    requires { place < 183 }
{
    let mut bytes = *FOUNDING;
    bytes[place] = byte;
    bytes
}

#[test]
fn each_field_has_its_refusal(rt: HostRuntime) {
    let alloc = rt.alloc();
    let table: [(usize, u8, CvcRefusal, u8); 20] = [
        (1, 0x22, other_tag(0), 2),
        (2, 0x84, no_object(0, TlvRefusal::LongLength), 2),
        (5, 0x4f, other_tag(4), 2),
        (118, 0x41, no_object(116, TlvRefusal::Truncated), 2),
        (118, 0x3f, CvcRefusal::Trailing, 8),
        (8, 0x28, other_tag(7), 2),
        (10, 0x01, CvcRefusal::Profile, 3),
        (13, b'd', CvcRefusal::Reference(RefRefusal::Country), 5),
        (29, 0x05, CvcRefusal::Key, 4),
        (37, 0x03, CvcRefusal::Key, 4),
        (38, 0x80, CvcRefusal::Key, 4),
        (39, 0x80, CvcRefusal::Key, 4),
        (64, 0x88, CvcRefusal::Key, 4),
        (80, b'a', CvcRefusal::Reference(RefRefusal::Sequence), 5),
        (84, 0x07, CvcRefusal::Template(TemplateRefusal::Form), 6),
        (
            94,
            0x02,
            CvcRefusal::Template(TemplateRefusal::UnknownType),
            6,
        ),
        (102, 0x0a, CvcRefusal::Date(DateRefusal::Digit), 7),
        (103, 0x02, CvcRefusal::Date(DateRefusal::NoSuchDay), 7),
        (108, 0x25, other_tag(107), 2),
        (112, 0x0a, CvcRefusal::Date(DateRefusal::Digit), 7),
    ];
    for (place, byte, refusal, number) in table {
        assert!(rt; place < 183);
        is_refused(&rt, alloc, &spoilt(place, byte), refusal, number);
    }
}

#[test]
fn one_byte_more_and_a_longer_spelling_are_refused(rt: HostRuntime) -> Result<(), Fail> {
    let alloc = rt.alloc();
    let founding = FOUNDING.as_slice();
    let mut more = Octets::from_slice(alloc, founding)?;
    more.push_all(b"\x00")?;
    is_refused(&rt, alloc, more.as_slice(), CvcRefusal::Trailing, 8);
    let mut longer = Octets::from_slice(alloc, b"\x7f\x21\x81\xb5\x7f\x4e\x82\x00\x6d")?;
    longer.push_all(&founding[7..])?;
    is_refused(
        &rt,
        alloc,
        longer.as_slice(),
        no_object(4, TlvRefusal::BadLength),
        2,
    );
    let mut too_long = Octets::from_slice(alloc, founding)?;
    too_long.push_all(&[0; 1_610])?;
    is_refused(&rt, alloc, too_long.as_slice(), CvcRefusal::TooLong, 1);
    Ok(())
}
