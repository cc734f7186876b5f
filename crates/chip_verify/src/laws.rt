// What holds of whole chains and over time. Each law is the contract of a function that does nothing.
ghost use Rattle.std.specs.Prelude.{◌≡◌, ◌↔◌, ℕ, List, [], Some, Bool};
ghost use Rattle.cvc_grammar.specs.declared.certificate.CertBody.{CertBody};
ghost use Rattle.cvc_grammar.specs.declared.certificate.Cert.{Cert};
ghost use Rattle.signature_provider.specs.Provider.{Says};
ghost use Rattle.chip_verify.specs.declared.trust_point.TrustPoint.{TrustPoint};
ghost use Rattle.chip_verify.specs.Trust.{Trust, points, IsTrust, IsLegalTrust};
ghost use Rattle.chip_verify.specs.Session.{SessionValue, IsBeside, no_session, granted};
ghost use Rattle.chip_verify.specs.Step.{Step, NoStep, Judges, verdict_on};
ghost use Rattle.chip_verify.specs.Later.{Later, IsAmong};
ghost use Rattle.chip_verify.specs.GoodChain.{GoodChain, IsAccepted};
ghost use Rattle.chip_verify.specs.Grant.{Accepted, Leads, Granting};

use crate::{ChipState, ImportRefusal, Judged, Session};

/// A finished chain is good exactly where its certificates have the roles of a chain and are accepted one after
/// another, from an empty session on.
pub fn good_chains_are_accepted()
    ensures { (says : Says) (t : Trust) (links : List Cert) (v w : Cert) → IsTrust t → GoodChain says t links v w
        ↔ IsAccepted says t links v w }
{}

/// After any certificates, from an empty session on, the session grants exactly the rights that stand in the last
/// accepted verifier, in the last terminal after it and in the trust point of that verifier; and none where the
/// accepted ones don't end so.
pub fn sessions_grant_their_chain()
    ensures { (t : Trust) (cs : List (CertBody × Bool)) (t' : Trust) (s' : SessionValue) (told : List Accepted) →
        Leads t no_session cs [] t' s' told → (rights : ℕ) → (granted s' ≡ Some rights) ↔ Granting told rights }
{}

/// Each accepted certificate leads to a later trust, which is a trust.
pub fn each_step_is_later()
    ensures later { (t : Trust) (s : SessionValue) (c : CertBody) (verdict : Bool) (t' : Trust) (s' : SessionValue) →
        IsTrust t → Step t s c verdict t' s' → Later t t' }
    ensures trust { (t : Trust) (s : SessionValue) (c : CertBody) (verdict : Bool) (t' : Trust) (s' : SessionValue) →
        IsTrust t → Step t s c verdict t' s' → IsTrust t' }
{}

/// A trust is as late as itself, and later than what an earlier one was later than. A replaced point never comes back.
pub fn later_never_goes_back()
    ensures same { (t : Trust) → Later t t }
    ensures composes { (t u v : Trust) → IsTrust t → Later t u → Later u v → Later t v }
    ensures never_back { (t u v : Trust) (p : TrustPoint) → IsTrust t → IsTrust u → Later t u → Later u v →
        IsAmong p (points t) → (IsAmong p (points u) → ⊥) → IsAmong p (points v) → ⊥ }
{}

/// A certificate leads by a step to one trust and one session, and by none where it is held or refused.
pub fn one_step_each()
    ensures one { (t : Trust) (s : SessionValue) (c : CertBody)
        (verdict : Bool) (t' u' : Trust) (s' r' : SessionValue) →
        Step t s c verdict t' s' → Step t s c verdict u' r' → (t' ≡ u') × (s' ≡ r') }
    ensures held { (says : Says) (t : Trust) (s : SessionValue) (c : Cert) →
        Judges says t s c Judged.Held → NoStep t s c.body (verdict_on says t s c) }
    ensures refused { (says : Says) (t : Trust) (s : SessionValue) (c : Cert) (k : ImportRefusal) →
        Judges says t s c (Judged.Refused k) → NoStep t s c.body (verdict_on says t s c) }
{}

/// What the type of states keeps.
pub fn states_are_legal(state: &ChipState)
    ensures { IsLegalTrust state.now }
{
    let _ = &state.day;
}

/// What the type of sessions keeps.
pub fn terminals_are_under_verifiers(session: &Session)
    ensures { IsBeside session.now.verifier session.now.terminal }
{
    let _ = &session.terminal;
}
