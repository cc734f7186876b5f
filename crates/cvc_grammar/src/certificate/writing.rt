// The texts of certificates.
ghost use Rattle.std.specs.Prelude.{◌≡◌, ◌++◌, ◌<◌, ◌≤◌, length, IsTrue, IfOk, OnOk};
ghost use Rattle.cvc_grammar.specs.Certificate as texts;
ghost use Rattle.tlv_core.specs.Object.{object};
ghost use Rattle.cvc_grammar.specs.Certificate.{signature_object, is_signature, longest_cert};
ghost use Rattle.cvc_grammar.specs.Certificate.{HasLegalFields, IsLegalBody, IsLegalCert, IsBody, IsCert};
ghost use Rattle.cvc_grammar.specs.declared.certificate.Cert.{Cert};

use crate::extensions::push_extensions;
use crate::key::writing::push_key;
use crate::object_writing::{push_object, write_object};
use crate::signed::write_signed;
use crate::{Cert, CertBody};
use chat_rights::put_template;
use cv_dates::put_date;
use eac_base::{NoMemory, Octets};
use std::alloc::Global;

fn push_body(out: &mut Octets, body: &CertBody) -> Result<(), NoMemory>
    requires key { IsTrue (texts.is_key_of_body body.now) }
    requires size { length (texts.body_content body.now) < 65536 }
    ensures text { OnOk result (out.new ≡ out.old ++ texts.body_content body.now) }
    ensures legal { OnOk result (HasLegalFields body.now) }
{
    let template = put_template(body.template);
    let from = put_date(body.from);
    let until = put_date(body.until);
    push_object(out, 0x5f29, &[0x00])?;
    push_object(out, 0x42, body.authority.as_slice())?;
    push_key(out, &body.key)?;
    push_object(out, 0x5f20, body.holder.as_slice())?;
    push_object(out, 0x7f4c, &template)?;
    push_object(out, 0x5f25, &from)?;
    push_object(out, 0x5f24, &until)?;
    push_extensions(out, &body.extensions)
}

/// The whole object 7F4E of a body, which the signature is over.
pub fn write_body(alloc: Global, body: &CertBody) -> Result<Octets, NoMemory>
    requires { IsLegalBody body.now }
    ensures { IfOk result (λ o. IsBody body.now o) }
{
    let mut content = Octets::new(alloc);
    push_body(&mut content, body)?;
    write_object(alloc, 0x7f4e, content.as_slice())
}

/// The whole object 7F21 of the certificate whose body's whole object 7F4E and whose signature these are. So what was
/// signed stands in the certificate as it is, and is not written again.
pub fn finish_cert(alloc: Global, body: &[u8], signature: &[u8]) -> Result<Octets, NoMemory>
    requires signature { IsTrue (is_signature signature.now) }
    requires size { length (object 0x7f21 (body.now ++ signature_object signature.now)) ≤ longest_cert }
    ensures text { IfOk result (λ o. o ≡ object 0x7f21 (body.now ++ signature_object signature.now)) }
    ensures cert { (c : Cert) → IsBody c.body body.now → c.signature ≡ signature.now →
        IfOk result (λ o. IsCert c o) }
{
    write_signed(alloc, 0x7f21, body, signature)
}

/// The whole object 7F21 of a certificate.
pub fn write_cert(alloc: Global, cert: &Cert) -> Result<Octets, NoMemory>
    requires { IsLegalCert cert.now }
    ensures { IfOk result (λ o. IsCert cert.now o) }
{
    let body = write_body(alloc, &cert.body)?;
    finish_cert(alloc, body.as_slice(), cert.signature.as_slice())
}
