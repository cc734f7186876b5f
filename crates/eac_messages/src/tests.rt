// What no clause says: that the calls find memory, and how bodies of worked examples come out.
use super::*;
use eac_base::{ByteLists, NoMemory, Octets};
use std::alloc::Global;
use std::process::Abort;
use std::test::Fail;

/// Why the body is no message.
fn message_refusal(alloc: Global, body: &[u8]) -> Option<MessageRefusal> {
    read_message(alloc, body).err()
}

/// Why the body is no reply.
fn reply_refusal(alloc: Global, body: &[u8]) -> Option<MessageRefusal> {
    read_reply(alloc, body).err()
}

const NO_JSON: Option<MessageRefusal> = Some(MessageRefusal::NotJson);

const fn member(which: Member) -> Option<MessageRefusal> {
    Some(MessageRefusal::Member(which))
}

const fn base64(which: Member) -> Option<MessageRefusal> {
    Some(MessageRefusal::Base64(which))
}

#[test]
fn each_refusal_of_a_message(rt: HostRuntime) {
    let alloc = rt.alloc();
    let table: [(&[u8], Option<MessageRefusal>); 44] = [
        // the whole body is the text of one object
        (b"[]", NO_JSON),
        (b"", NO_JSON),
        (b"null", NO_JSON),
        (b"\"call\"", NO_JSON),
        (b"{\"call\":\"GetCACertificates\"", NO_JSON),
        (b"{\"call\":\"GetCACertificates\",}", NO_JSON),
        (b"{\"call\":\"GetCACertificates\"} {}", NO_JSON),
        (b"{\"call\":\"GetCACertificates\"}x", NO_JSON),
        (b" {\"call\":\"GetCACertificates\"}\r\n", None),
        (b"\xef\xbb\xbf{\"call\":\"GetCACertificates\"}", NO_JSON),
        // in members that are passed over too
        (b"{\"call\":\"GetCACertificates\",\"x\":\"\xff\"}", NO_JSON),
        (
            b"{\"call\":\"GetCACertificates\",\"x\":\"\\ud800\"}",
            NO_JSON,
        ),
        (
            b"{\"call\":\"GetCACertificates\",\"x\":\"\\ud83d\\ude00\"}",
            None,
        ),
        (
            b"{\"call\":\"GetCACertificates\",\"x\":1.7976931348623157e308}",
            None,
        ),
        (
            b"{\"call\":\"GetCACertificates\",\"x\":1.7976931348623159e308}",
            NO_JSON,
        ),
        (b"{\"call\":\"GetCACertificates\",\"x\":01}", NO_JSON),
        (
            b"{\"call\":\"GetCACertificates\",\"request\":1,\"certificates\":2,\"rule\":3}",
            None,
        ),
        // the call
        (b"{}", member(Member::Call)),
        (b"{\"call\":1,\"messageID\":1}", member(Member::Call)),
        (b"{\"call\":null}", member(Member::Call)),
        (b"{\"call\":\"getCACertificates\"}", member(Member::Call)),
        (b"{\"Call\":\"GetCACertificates\"}", member(Member::Call)),
        (b"{\"\\u0063all\":\"GetC\\u0041Certificates\"}", None),
        // of a name that comes twice the last value counts
        (b"{\"call\":1,\"call\":\"GetCACertificates\"}", None),
        (
            b"{\"call\":\"GetCACertificates\",\"call\":1}",
            member(Member::Call),
        ),
        // the identifier
        (
            b"{\"call\":\"RequestCertificate\",\"messageID\":null}",
            member(Member::MessageId),
        ),
        (
            b"{\"call\":\"RequestCertificate\",\"messageID\":7}",
            member(Member::MessageId),
        ),
        (b"{\"call\":\"GetCACertificates\",\"messageID\":\"\"}", None),
        // the request
        (
            b"{\"call\":\"RequestCertificate\"}",
            member(Member::Request),
        ),
        (
            b"{\"call\":\"RequestCertificate\",\"request\":[\"AQI=\"]}",
            member(Member::Request),
        ),
        (
            b"{\"call\":\"RequestCertificate\",\"request\":\"A\"}",
            base64(Member::Request),
        ),
        (
            b"{\"call\":\"RequestCertificate\",\"request\":\"AQI\"}",
            base64(Member::Request),
        ),
        (
            b"{\"call\":\"RequestCertificate\",\"request\":\"AQJ=\"}",
            base64(Member::Request),
        ),
        (
            b"{\"call\":\"RequestCertificate\",\"request\":\"AQI= \"}",
            base64(Member::Request),
        ),
        (
            b"{\"call\":\"RequestCertificate\",\"request\":\"-_-_\"}",
            base64(Member::Request),
        ),
        (b"{\"call\":\"RequestCertificate\",\"request\":\"\"}", None),
        (
            b"{\"call\":\"RequestCertificate\",\"request\":\"+/+\\/\",\"extra\":1}",
            None,
        ),
        // the certificates: each is a text before any is judged
        (
            b"{\"call\":\"SendCertificates\"}",
            member(Member::Certificates),
        ),
        (
            b"{\"call\":\"SendCertificates\",\"certificates\":\"AQI=\"}",
            member(Member::Certificates),
        ),
        (
            b"{\"call\":\"SendCertificates\",\"certificates\":{}}",
            member(Member::Certificates),
        ),
        (
            b"{\"call\":\"SendCertificates\",\"certificates\":[\"A\",1]}",
            member(Member::Certificates),
        ),
        (
            b"{\"call\":\"SendCertificates\",\"certificates\":[\"AQI=\",\"A\"]}",
            base64(Member::Certificates),
        ),
        (b"{\"call\":\"SendCertificates\",\"certificates\":[]}", None),
        (
            b"{\"call\":\"SendCertificates\",\"certificates\":[\"\",\"AQI=\"]}",
            None,
        ),
    ];
    for (body, refusal) in table {
        assert_eq!(rt; message_refusal(alloc, body), refusal);
    }
}

#[test]
fn each_refusal_of_a_reply(rt: HostRuntime) {
    let alloc = rt.alloc();
    let table: [(&[u8], Option<MessageRefusal>); 27] = [
        (b"[{}]", NO_JSON),
        (b"{\"code\":\"ok_received\"},", NO_JSON),
        (b"{}", member(Member::Code)),
        (b"{\"code\":\"ok\"}", member(Member::Code)),
        (b"{\"code\":5,\"messageID\":5}", member(Member::Code)),
        (b"{\"code\":\"ok_received\"}", None),
        (
            b"{\"code\":\"ok_received\",\"messageID\":null,\"rule\":0}",
            member(Member::MessageId),
        ),
        // an integer from 1 to 14
        (
            b"{\"code\":\"failure_syntax\",\"rule\":0}",
            member(Member::Rule),
        ),
        (b"{\"code\":\"failure_syntax\",\"rule\":1}", None),
        (b"{\"code\":\"failure_outer_signature\",\"rule\":14}", None),
        (
            b"{\"code\":\"failure_syntax\",\"rule\":15}",
            member(Member::Rule),
        ),
        (
            b"{\"code\":\"failure_syntax\",\"rule\":257}",
            member(Member::Rule),
        ),
        (
            b"{\"code\":\"failure_syntax\",\"rule\":18446744073709551617}",
            member(Member::Rule),
        ),
        (
            b"{\"code\":\"failure_syntax\",\"rule\":-1}",
            member(Member::Rule),
        ),
        (
            b"{\"code\":\"failure_syntax\",\"rule\":1.0}",
            member(Member::Rule),
        ),
        (
            b"{\"code\":\"failure_syntax\",\"rule\":1e0}",
            member(Member::Rule),
        ),
        (
            b"{\"code\":\"failure_syntax\",\"rule\":\"1\"}",
            member(Member::Rule),
        ),
        (
            b"{\"code\":\"failure_syntax\",\"rule\":null}",
            member(Member::Rule),
        ),
        // certificates come under one code, and are passed over under another
        (
            b"{\"code\":\"ok_cert_available\"}",
            member(Member::Certificates),
        ),
        (
            b"{\"code\":\"ok_cert_available\",\"certificates\":null}",
            member(Member::Certificates),
        ),
        (
            b"{\"code\":\"ok_cert_available\",\"certificates\":[[]]}",
            member(Member::Certificates),
        ),
        (
            b"{\"code\":\"ok_cert_available\",\"certificates\":[\"A\",null]}",
            member(Member::Certificates),
        ),
        (
            b"{\"code\":\"ok_cert_available\",\"certificates\":[\"A\"]}",
            base64(Member::Certificates),
        ),
        (
            b"{\"code\":\"ok_cert_available\",\"certificates\":[\"A\"],\"rule\":0}",
            member(Member::Rule),
        ),
        (
            b"{\"code\":\"ok_cert_available\",\"certificates\":[]}",
            None,
        ),
        (b"{\"code\":\"ok_received\",\"certificates\":[\"A\"]}", None),
        (
            b"{\"code\":\"failure_internal_error\",\"certificates\":1}",
            None,
        ),
    ];
    for (body, refusal) in table {
        assert_eq!(rt; reply_refusal(alloc, body), refusal);
    }
}

/// A body with an identifier of so many bytes, half of them letters of two bytes.
fn with_id_of(alloc: Global, pairs: u32, more: &[u8]) -> Result<Octets, NoMemory> {
    let mut body = Octets::new(alloc);
    body.push_all(b"{\"call\":\"GetCACertificates\",\"messageID\":\"")?;
    for _ in 0..pairs {
        body.push_all(b"\\u00e9")?;
    }
    body.push_all(more)?;
    body.push_all(b"\"}")?;
    Ok(body)
}

#[test]
fn an_identifier_has_at_most_64_bytes(rt: HostRuntime) -> Result<(), Fail> {
    let alloc = rt.alloc();
    let longest = with_id_of(alloc, 32, b"")?;
    assert_eq!(rt; message_refusal(alloc, longest.as_slice()), None);
    let longer = with_id_of(alloc, 32, b"x")?;
    assert_eq!(rt;
        message_refusal(alloc, longer.as_slice()),
        member(Member::MessageId)
    );
    Ok(())
}

/// A body whose extra member is so many arrays in one another.
fn with_levels(alloc: Global, levels: u32) -> Result<Octets, NoMemory> {
    let mut body = Octets::new(alloc);
    body.push_all(b"{\"call\":\"GetCACertificates\",\"x\":")?;
    for _ in 0..levels {
        body.push_all(b"[")?;
    }
    for _ in 0..levels {
        body.push_all(b"]")?;
    }
    body.push_all(b"}")?;
    Ok(body)
}

#[test]
fn a_body_has_at_most_127_levels(rt: HostRuntime) -> Result<(), Fail> {
    let alloc = rt.alloc();
    for (levels, refusal) in [(126, None), (127, NO_JSON), (200, NO_JSON)] {
        let body = with_levels(alloc, levels)?;
        assert_eq!(rt; message_refusal(alloc, body.as_slice()), refusal);
    }
    Ok(())
}

/// One and two bytes, and none.
fn three_lists(alloc: Global) -> Result<ByteLists, NoMemory> {
    let mut lists = ByteLists::new(alloc);
    lists.push(b"\x01")?;
    lists.push(b"\x01\x02")?;
    lists.push(b"")?;
    Ok(lists)
}

#[test]
fn calls_are_written_and_read(rt: HostRuntime) -> Result<(), Fail> {
    let alloc = rt.alloc();
    let request = Message::RequestCertificate {
        id: Octets::new(alloc),
        request: Octets::from_slice(alloc, b"\x01\x02")?,
    };
    let text = write_message(alloc, &request)?;
    assert_eq!(rt;
        text.as_slice(),
        b"{\"call\":\"RequestCertificate\",\"request\":\"AQI=\"}".as_slice()
    );
    let sent = Message::SendCertificates {
        id: Octets::from_slice(alloc, b"a1")?,
        certificates: three_lists(alloc)?,
    };
    let text = write_message(alloc, &sent)?;
    assert_eq!(rt;
        text.as_slice(),
        b"{\"call\":\"SendCertificates\",\"certificates\":[\"AQ==\",\"AQI=\",\"\"],\"messageID\":\"a1\"}".as_slice()
    );
    let Message::SendCertificates { id, certificates } = read_message(alloc, text.as_slice())?
    else {
        assert!(rt; false);
        return Ok(());
    };
    assert_eq!(rt; id.as_slice(), b"a1".as_slice());
    assert_eq!(rt; certificates.len(), 3);
    assert_eq!(rt; certificates.get(1), Some(b"\x01\x02".as_slice()));
    Ok(())
}

#[test]
fn what_json_escapes_is_escaped_in_an_identifier(rt: HostRuntime) -> Result<(), Fail> {
    let alloc = rt.alloc();
    let message = Message::GetCaCertificates {
        id: Octets::from_slice(alloc, b"\"\\/\n\x01")?,
    };
    let text = write_message(alloc, &message)?;
    assert_eq!(rt;
        text.as_slice(),
        b"{\"call\":\"GetCACertificates\",\"messageID\":\"\\\"\\\\/\\n\\u0001\"}".as_slice()
    );
    Ok(())
}

#[test]
fn replies_are_written_and_read(rt: HostRuntime) -> Result<(), Fail> {
    let alloc = rt.alloc();
    let refused = Reply {
        id: Octets::new(alloc),
        code: Code::Syntax,
        rule: Some(1),
        certificates: ByteLists::new(alloc),
    };
    let text = write_reply(alloc, &refused)?;
    assert_eq!(rt;
        text.as_slice(),
        b"{\"code\":\"failure_syntax\",\"rule\":1}".as_slice()
    );
    let listed = Reply {
        id: Octets::from_slice(alloc, b"a1")?,
        code: Code::CertAvailable,
        rule: None,
        certificates: three_lists(alloc)?,
    };
    let text = write_reply(alloc, &listed)?;
    assert_eq!(rt;
        text.as_slice(),
        b"{\"certificates\":[\"AQ==\",\"AQI=\",\"\"],\"code\":\"ok_cert_available\",\"messageID\":\"a1\"}".as_slice()
    );
    let reply = read_reply(alloc, text.as_slice())?;
    assert_eq!(rt; reply.id.as_slice(), b"a1".as_slice());
    assert_eq!(rt; reply.code, Code::CertAvailable);
    assert_eq!(rt; reply.rule, None);
    assert_eq!(rt; reply.certificates.get(2), Some(b"".as_slice()));
    Ok(())
}
