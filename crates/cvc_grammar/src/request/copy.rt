// Requests of their own.
ghost use Rattle.std.specs.Prelude.{◌≡◌, Ok, IfOk, option_map};
ghost use Rattle.eac_base.specs.Answers.{Answers};
ghost use Rattle.cvc_grammar.specs.RequestOrder as order;
ghost use Rattle.cvc_grammar.specs.Request.{IsRequest};
ghost use Rattle.cvc_grammar.specs.Views.{refused_cvc, RefusedFirst};
ghost use Rattle.cvc_grammar.specs.RequestViews.{seen_outer, seen_request};
ghost use Rattle.cvc_grammar.specs.declared.request.Request.{Request};

use crate::extensions::own_extensions;
use crate::key::copy::own_key;
use crate::{Outer, OuterView, ReadCvc, Request, RequestBody, RequestView, view_request};
use eac_base::{NoMemory, Octets, are_bytes};
use std::alloc::Global;

fn own_outer(alloc: Global, outer: &Option<OuterView>) -> Result<Option<Outer>, NoMemory>
    ensures { IfOk result (λ o. o ≡ option_map seen_outer outer.now) }
{
    match outer {
        None => Ok(None),
        Some(outer) => Ok(Some(Outer {
            reference: outer.reference,
            signature: Octets::from_slice(alloc, outer.signature)?,
        })),
    }
}

impl RequestView<'_> {
    /// The request with bytes of its own.
    pub fn to_request(&self, alloc: Global) -> Result<Request, NoMemory>
        ensures { IfOk result (λ r. r ≡ seen_request self.now) }
    {
        let key = own_key(alloc, self.key, self.cofactor)?;
        let extensions = own_extensions(alloc, self.extensions)?;
        let inner = Octets::from_slice(alloc, self.inner)?;
        let outer = own_outer(alloc, &self.outer)?;
        Ok(Request {
            body: RequestBody {
                authority: self.authority,
                key,
                holder: self.holder,
                extensions,
            },
            inner,
            outer,
        })
    }
}

fn own_request_view(alloc: Global, bytes: &[u8]) -> Result<Request, ReadCvc>
    ensures exact { Answers (λ r. r) refused_cvc result (order.read_request bytes.now) }
    ensures refused { RefusedFirst (order.read_request bytes.now) result }
{
    match view_request(bytes) {
        Err(e) => Err(ReadCvc::Refused(e)),
        Ok(view) => Ok(view.to_request(alloc)?),
    }
}

/// The request of the input, copied. The refusals are those of `view_request`, in its order; `NoMemory` can come in
/// place of a request alone.
pub fn read_request(alloc: Global, bytes: &[u8]) -> Result<Request, ReadCvc>
    ensures exact { Answers (λ r. r) refused_cvc result (order.read_request bytes.now) }
    ensures found { IfOk result (λ r. IsRequest r bytes.now) }
    ensures only { (r : Request) → IsRequest r bytes.now → Answers (λ d. d) refused_cvc result (Ok r) }
    ensures refused { RefusedFirst (order.read_request bytes.now) result }
{
    are_bytes(bytes);
    own_request_view(alloc, bytes)
}
