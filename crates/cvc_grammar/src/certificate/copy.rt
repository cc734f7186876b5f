// Certificates of their own.
ghost use Rattle.std.specs.Prelude.{◌≡◌, Ok, IfOk};
ghost use Rattle.eac_base.specs.Answers.{Answers};
ghost use Rattle.cvc_grammar.specs.ReadingOrder as order;
ghost use Rattle.cvc_grammar.specs.Certificate.{IsCert};
ghost use Rattle.cvc_grammar.specs.Views.{seen_cert, refused_cvc, RefusedFirst};
ghost use Rattle.cvc_grammar.specs.declared.certificate.Cert.{Cert};

use crate::extensions::own_extensions;
use crate::key::copy::own_key;
use crate::{Cert, CertBody, CertView, ReadCvc, view_cert};
use eac_base::{NoMemory, Octets, are_bytes};
use std::alloc::Global;

impl CertView<'_> {
    /// The certificate with bytes of its own.
    pub fn to_cert(&self, alloc: Global) -> Result<Cert, NoMemory>
        ensures { IfOk result (λ c. c ≡ seen_cert self.now) }
    {
        let key = own_key(alloc, self.key, self.cofactor)?;
        let extensions = own_extensions(alloc, self.extensions)?;
        let signature = Octets::from_slice(alloc, self.signature)?;
        Ok(Cert {
            body: CertBody {
                authority: self.authority,
                key,
                holder: self.holder,
                template: self.template,
                from: self.from,
                until: self.until,
                extensions,
            },
            signature,
        })
    }
}

fn own_view(alloc: Global, bytes: &[u8]) -> Result<Cert, ReadCvc>
    ensures exact { Answers (λ c. c) refused_cvc result (order.read_cert bytes.now) }
    ensures refused { RefusedFirst (order.read_cert bytes.now) result }
{
    match view_cert(bytes) {
        Err(e) => Err(ReadCvc::Refused(e)),
        Ok(view) => Ok(view.to_cert(alloc)?),
    }
}

/// The certificate of the input, copied. The refusals are those of `view_cert`, in its order; `NoMemory` can come in
/// place of a certificate alone.
pub fn read_cert(alloc: Global, bytes: &[u8]) -> Result<Cert, ReadCvc>
    ensures exact { Answers (λ c. c) refused_cvc result (order.read_cert bytes.now) }
    ensures found { IfOk result (λ c. IsCert c bytes.now) }
    ensures only { (c : Cert) → IsCert c bytes.now → Answers (λ d. d) refused_cvc result (Ok c) }
    ensures refused { RefusedFirst (order.read_cert bytes.now) result }
{
    are_bytes(bytes);
    own_view(alloc, bytes)
}
