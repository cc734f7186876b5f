// The verdicts of the provider on a request's signatures, over the bytes that came.
ghost use Rattle.std.specs.Prelude.{◌≡◌, ◌++◌, Some, IfOk};
ghost use Rattle.cvc_grammar.specs.Request.{outer_signed};
ghost use Rattle.cvc_grammar.specs.RequestViews.{seen_outer, seen_request, IsRequestView};
ghost use Rattle.issue_core.specs.Issuing.SeenRules.{inner_says, outer_says, outer_rule, verdict_rule};
ghost use Rattle.issue_core.specs.Issuing.Causes.{VerdictCaused};

use crate::issuing::voucher_row::Voucher;
use crate::{IssueFault, Rule};
use cvc_grammar::{OuterView, RequestView};
use signature_provider::SignatureProvider;

// The provider's verdict on the inner signature, which is over the body by the request's own key.
fn ask_inner<P: SignatureProvider>(view: &RequestView, provider: &mut P) -> Result<bool, IssueFault>
    requires { IsRequestView view.now.whole.now view.now }
    ensures verdict { IfOk result (λ yes. yes ≡ inner_says (P.says provider.old) (seen_request view.now)) }
    ensures says { P.says provider.new ≡ P.says provider.old }
    ensures holds { P.holds provider.new ≡ P.holds provider.old }
    ensures signed { P.signed provider.new ≡ P.signed provider.old }
    ensures cause { VerdictCaused (P.faults provider.old) (P.faults provider.new) result }
{
    match provider.verify(view.key, view.body, &[], view.inner) {
        Ok(yes) => Ok(yes),
        Err(_) => Err(IssueFault::ProviderFault),
    }
}

// Its verdict on the outer signature, which is over the bare request and the reference that signs.
fn ask_voucher<P: SignatureProvider>(
    view: &RequestView,
    outer: &OuterView,
    voucher: &Voucher,
    provider: &mut P,
) -> Result<bool, IssueFault>
    requires { view.now.bare.now ++ outer.now.named.now ≡ outer_signed (seen_request view.now) outer.now.reference }
    ensures verdict { IfOk result
        (λ yes. yes ≡ outer_says (P.says provider.old) (seen_request view.now) (seen_outer outer.now) voucher.now) }
    ensures says { P.says provider.new ≡ P.says provider.old }
    ensures holds { P.holds provider.new ≡ P.holds provider.old }
    ensures signed { P.signed provider.new ≡ P.signed provider.old }
    ensures cause { VerdictCaused (P.faults provider.old) (P.faults provider.new) result }
{
    match provider.verify(voucher.key.view(), view.bare, outer.named, outer.signature) {
        Ok(yes) => Ok(yes),
        Err(_) => Err(IssueFault::ProviderFault),
    }
}

fn ask_outer<P: SignatureProvider>(
    view: &RequestView,
    voucher: &Option<Voucher>,
    provider: &mut P,
) -> Result<Option<Rule>, IssueFault>
    requires { IsRequestView view.now.whole.now view.now }
    ensures rule { IfOk result
        (λ o. o ≡ outer_rule (P.says provider.old) (seen_request view.now) (seen_request view.now).outer voucher.now) }
    ensures says { P.says provider.new ≡ P.says provider.old }
    ensures holds { P.holds provider.new ≡ P.holds provider.old }
    ensures signed { P.signed provider.new ≡ P.signed provider.old }
    ensures cause { VerdictCaused (P.faults provider.old) (P.faults provider.new) result }
{
    let Some(outer) = &view.outer else {
        return Ok(None);
    };
    let Some(voucher) = voucher else {
        return Ok(None);
    };
    if ask_voucher(view, outer, voucher, provider)? {
        Ok(None)
    } else {
        Ok(Some(Rule::Outer))
    }
}

/// The rules 13 and 14: each verdict is asked for where no earlier rule is broken.
pub fn ask<P: SignatureProvider>(
    view: &RequestView,
    voucher: &Option<Voucher>,
    provider: &mut P,
) -> Result<Option<Rule>, IssueFault>
    requires { IsRequestView view.now.whole.now view.now }
    ensures rule { IfOk result (λ o. o ≡ verdict_rule (P.says provider.old) (seen_request view.now) voucher.now) }
    ensures says { P.says provider.new ≡ P.says provider.old }
    ensures holds { P.holds provider.new ≡ P.holds provider.old }
    ensures signed { P.signed provider.new ≡ P.signed provider.old }
    ensures cause { VerdictCaused (P.faults provider.old) (P.faults provider.new) result }
{
    if ask_inner(view, provider)? {
        ask_outer(view, voucher, provider)
    } else {
        Ok(Some(Rule::Inner))
    }
}
