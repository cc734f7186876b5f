// Requests: what no clause says.
use super::texts::{AUTHENTICATED, REQUEST, WITHOUT_AUTHORITY, WITHOUT_DOMAIN};
use super::{no_object, other_tag};
use crate::{
    CvcRefusal, ObjectFault, ReadCvc, read_request, view_request, write_request,
    write_request_body, write_signed_part,
};
use eac_base::Octets;
use std::alloc::Global;
use std::process::Abort;
use std::test::Fail;
use tlv_core::TlvRefusal;

#[test]
fn a_request_has_its_parts(rt: HostRuntime) -> Result<(), Fail> {
    let request = read_request(rt.alloc(), AUTHENTICATED)?;
    let body = &request.body;
    assert!(rt; matches!(&body.authority, Some(it) if it.as_slice() == b"DECVCA00001".as_slice()));
    assert_eq!(rt; body.holder.as_slice(), b"DEDVBUND00001".as_slice());
    assert_eq!(rt; body.key.domain.len(), 15);
    assert_eq!(rt;
        body.key.point.as_slice(),
        b"\x00\x00\x00\x00\x00\x00\x00\x02".as_slice()
    );
    assert_eq!(rt; body.key.cofactor.as_slice(), b"\x87\x01\x01".as_slice());
    assert!(rt; body.extensions.is_none());
    assert_eq!(rt; request.inner.len(), 64);
    let Some(outer) = &request.outer else {
        return Err(Fail::from("no outer part"));
    };
    assert_eq!(rt; outer.reference.as_slice(), b"DECVCA00001".as_slice());
    assert_eq!(rt; outer.signature.len(), 64);
    Ok(())
}

/// What each signature is over, where it lies.
#[test]
fn a_view_shows_what_is_signed(rt: HostRuntime) {
    let (Ok(bare), Ok(view)) = (view_request(REQUEST), view_request(AUTHENTICATED)) else {
        assert!(rt; false);
        return;
    };
    assert!(rt; bare.outer.is_none());
    assert_eq!(rt; bare.bare, REQUEST.as_slice());
    assert_eq!(rt; view.whole, AUTHENTICATED.as_slice());
    assert_eq!(rt; view.bare, REQUEST.as_slice());
    assert_eq!(rt; view.body, &REQUEST.as_slice()[4..83]);
    assert_eq!(rt; view.inner.len(), 64);
    let Some(outer) = view.outer else {
        assert!(rt; false);
        return;
    };
    assert_eq!(rt; outer.named, b"\x42\x0bDECVCA00001".as_slice());
    assert_eq!(rt; outer.signature.len(), 64);
}

/// A request with its whole body object and with what an outer signature is over, but for the reference.
#[test]
fn what_is_read_is_written_as_it_was(rt: HostRuntime) -> Result<(), Fail> {
    let alloc = rt.alloc();
    let (plain, outer, unaddressed) = (
        REQUEST.as_slice(),
        AUTHENTICATED.as_slice(),
        WITHOUT_AUTHORITY.as_slice(),
    );
    let table: [(&[u8], &[u8], &[u8]); 3] = [
        (plain, &plain[4..83], plain),
        (outer, &plain[4..83], plain),
        (unaddressed, &unaddressed[4..70], unaddressed),
    ];
    for (bytes, body, bare) in table {
        let request = read_request(alloc, bytes)?;
        assert_eq!(rt; write_request_body(alloc, &request.body)?.as_slice(), body);
        assert_eq!(rt; write_signed_part(alloc, &request)?.as_slice(), bare);
        assert_eq!(rt; write_request(alloc, &request)?.as_slice(), bytes);
    }
    Ok(())
}

fn is_refused(rt: &impl Abort, alloc: Global, bytes: &[u8], refusal: CvcRefusal) {
    assert!(rt;
        matches!(read_request(alloc, bytes), Err(ReadCvc::Refused(e)) if e == refusal),
        "{refusal:?}"
    );
}

/// The request between these bytes.
fn within(alloc: Global, front: &[u8], back: &[&[u8]]) -> Result<Octets, Fail> {
    let mut text = Octets::from_slice(alloc, front)?;
    text.push_all(REQUEST)?;
    for bytes in back {
        text.push_all(bytes)?;
    }
    Ok(text)
}

#[test]
fn each_outer_object_is_judged_before_the_next(rt: HostRuntime) -> Result<(), Fail> {
    let alloc = rt.alloc();
    let reference = b"\x42\x0bDECVCA00001".as_slice();
    let exchanged = within(
        alloc,
        b"\x67\x81\xe6",
        &[b"\x5f\x37\x40", &[0; 64], reference],
    )?;
    is_refused(&rt, alloc, exchanged.as_slice(), other_tag(153));
    let unsigned = within(alloc, b"\x67\x81\xa6", &[reference, b"\x5f\x37\x00"])?;
    let no_size = CvcRefusal::Object {
        offset: 166,
        fault: ObjectFault::Size,
    };
    is_refused(&rt, alloc, unsigned.as_slice(), no_size);
    let trailing = within(alloc, b"", &[b"\x00"])?;
    is_refused(&rt, alloc, trailing.as_slice(), CvcRefusal::Trailing);
    Ok(())
}

#[test]
fn a_request_is_refused_by_its_first_broken_step(rt: HostRuntime) {
    let alloc = rt.alloc();
    let bytes = REQUEST.as_slice();
    let table: [(&[u8], CvcRefusal); 4] = [
        (&[0x67; 2_305], CvcRefusal::TooLong),
        (b"\x65\x00", other_tag(0)),
        (&bytes[..149], no_object(0, TlvRefusal::Truncated)),
        (WITHOUT_DOMAIN, CvcRefusal::Key),
    ];
    for (bytes, refusal) in table {
        is_refused(&rt, alloc, bytes, refusal);
    }
}
