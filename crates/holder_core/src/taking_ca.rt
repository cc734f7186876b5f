// Certificates of authorities.
ghost use Rattle.std.specs.Prelude.{◌≡◌, IfOk, IfSome, Ok};
ghost use Rattle.eac_base.specs.Causes.{HasCause};
ghost use Rattle.eac_base.specs.Telling.{Told};
ghost use Rattle.cvc_grammar.specs.Views.{seen_cert};
ghost use Rattle.keeper.specs.Rows.{IsStorable, IsStorableKey};
ghost use Rattle.holder_core.specs.Faults.{HolderCause, KeeperCaused, NoneMissing};
ghost use Rattle.holder_core.specs.Taking.{IsRead};
ghost use Rattle.holder_core.specs.TakingCa.{Judges, IsAddedAs, TookCaBy, TookCaAsked, TakesCaRead, TakesCa};
ghost use Rattle.holder_core.specs.TakingCa as words;

use crate::adding::{Added, add_row};
use crate::looking::look_ca;
use crate::taking::{ask_signature, settled_by};
use crate::{CaRule, HolderFault, TakenCa};
use chat_rights::Role;
use cvc_grammar::{CertView, view_cert};
use eac_base::{Failed, NoMemory, Octets, is_same};
use holder_reference::Reference;
use keeper::{CaPart, Keeper, Part, Row};
use signature_provider::{Algorithm, Key, SignatureProvider};
use std::alloc::Global;

// What the rows say of a certificate: what stands under its reference, and its issuer.
#[derive(Debug, Drop)]
struct SeenCa {
    there: Option<CaPart>,
    issuer: Option<CaPart>,
}

// What a certificate is judged to be.
#[derive(Debug, Drop)]
enum JudgedCa {
    /// This is the answer, and nothing is written.
    Answered(TakenCa),
    /// It may be kept, below this issuer.
    Below(CaPart),
}

fn see<B: Keeper>(
    alloc: Global,
    party: u32,
    cert: &CertView,
    keeper: &mut B,
) -> Result<SeenCa, HolderFault>
    ensures told { Told (B.rows keeper.old) (B.rows keeper.new) (λ before after. (after ≡ before) × IfOk result
        (words.IsSeen party (seen_cert cert.now) before)) }
    ensures asked { IfOk result (words.IsSeenAsked party (seen_cert cert.now)) }
    ensures storable { IfOk result (λ seen. IfSome seen.issuer (λ ca. IsStorableKey ca.key)) }
    ensures cause { KeeperCaused (B.faults keeper.old) (B.faults keeper.new) result }
{
    let there = look_ca(alloc, party, &cert.holder, keeper)?;
    let issuer = look_ca(alloc, party, &cert.authority, keeper)?;
    Ok(SeenCa { there, issuer })
}

fn is_country(role: Role) -> bool
    ensures { result ≡ words.is_country role }
{
    match role {
        Role::Cvca => true,
        Role::Domestic | Role::Foreign | Role::Terminal => false,
    }
}

fn is_terminal(role: Role) -> bool
    ensures { result ≡ words.is_terminal role }
{
    match role {
        Role::Terminal => true,
        Role::Cvca | Role::Domestic | Role::Foreign => false,
    }
}

fn country_only(found: Option<CaPart>) -> Option<CaPart>
    ensures { result ≡ words.country_only found }
{
    let Some(ca) = found else {
        return None;
    };
    if is_country(ca.settled.template.role) {
        Some(ca)
    } else {
        None
    }
}

fn has_wrong_key(cert: &CertView, issuer: &Key) -> bool
    ensures { result ≡ words.has_wrong_key (seen_cert cert.now).body issuer.now }
{
    let key = cert.key;
    let bare = key.domain.is_empty();
    if is_country(cert.template.role) {
        key.algorithm.is_elliptic() && bare && !issuer.algorithm.is_elliptic()
    } else {
        !bare || !(key.algorithm == issuer.algorithm)
    }
}

fn is_held_as(bytes: &[u8], there: &Option<CaPart>) -> bool
    ensures { result ≡ words.is_held_as bytes.now there.now }
{
    match there {
        Some(ca) => is_same(ca.settled.certificate.as_slice(), bytes),
        None => false,
    }
}

// The signature is good: another certificate stands under the reference, or this one may be kept.
fn judge_new(there: Option<CaPart>, issuer: CaPart) -> JudgedCa
    ensures { result ≡ words.judged_new there issuer }
{
    match there {
        Some(kept) => JudgedCa::Answered(TakenCa::Refused(CaRule::Differs(
            kept.settled.certificate,
        ))),
        None => JudgedCa::Below(issuer),
    }
}

// A certificate of an authority, by its issuer, where that is a country's.
fn judge_issued<P: SignatureProvider>(
    cert: &CertView,
    there: Option<CaPart>,
    issuer: Option<CaPart>,
    provider: &mut P,
) -> Result<JudgedCa, Failed>
    requires { IsRead cert.now }
    ensures judged { IfOk result (λ j. words.IssuedJudges (P.says provider.old) (seen_cert cert.now) there issuer j) }
    ensures says { P.says provider.new ≡ P.says provider.old }
    ensures holds { P.holds provider.new ≡ P.holds provider.old }
    ensures signed { P.signed provider.new ≡ P.signed provider.old }
    ensures cause { HasCause (P.faults provider.old) (P.faults provider.new) result }
{
    let Some(issuer) = issuer else {
        return Ok(JudgedCa::Answered(TakenCa::Refused(CaRule::NoIssuer)));
    };
    if has_wrong_key(cert, &issuer.key) {
        return Ok(JudgedCa::Answered(TakenCa::Refused(CaRule::Parameters)));
    }
    if ask_signature(cert, &issuer.key, provider)? {
        Ok(judge_new(there, issuer))
    } else {
        Ok(JudgedCa::Answered(TakenCa::Refused(CaRule::Signature)))
    }
}

// What it is by what was seen, with the provider's verdict where it comes to that.
fn judge<P: SignatureProvider>(
    cert: &CertView,
    seen: SeenCa,
    provider: &mut P,
) -> Result<JudgedCa, Failed>
    requires { IsRead cert.now }
    ensures judged { IfOk result (λ j. Judges (P.says provider.old) cert.now.whole.now (seen_cert cert.now) seen.there
        seen.issuer j) }
    ensures says { P.says provider.new ≡ P.says provider.old }
    ensures holds { P.holds provider.new ≡ P.holds provider.old }
    ensures signed { P.signed provider.new ≡ P.signed provider.old }
    ensures cause { HasCause (P.faults provider.old) (P.faults provider.new) result }
{
    let SeenCa { there, issuer } = seen;
    if is_held_as(cert.whole, &there) {
        return Ok(JudgedCa::Answered(TakenCa::Held(cert.holder)));
    }
    if is_terminal(cert.template.role) {
        return Ok(JudgedCa::Answered(TakenCa::Refused(CaRule::Role)));
    }
    judge_issued(cert, there, country_only(issuer), provider)
}

fn key_of(
    alloc: Global,
    algorithm: Algorithm,
    domain: &[u8],
    point: &[u8],
    cofactor: &[u8],
) -> Result<Key, NoMemory>
    ensures { IfOk result (λ k. k ≡ record {
      algorithm = algorithm;
      domain = domain.now;
      point = point.now;
      cofactor =
          cofactor.now;
    }) }
{
    Ok(Key {
        algorithm,
        domain: Octets::from_slice(alloc, domain)?,
        point: Octets::from_slice(alloc, point)?,
        cofactor: Octets::from_slice(alloc, cofactor)?,
    })
}

// The certificate's key, with its issuer's domain and cofactor where it is elliptic and has none.
fn whole_key(alloc: Global, cert: &CertView, issuer: &Key) -> Result<Key, NoMemory>
    ensures { IfOk result (λ k. k ≡ words.whole_key (seen_cert cert.now).body.key issuer.now) }
{
    let key = cert.key;
    if key.algorithm.is_elliptic() && key.domain.is_empty() {
        key_of(
            alloc,
            key.algorithm,
            issuer.domain.as_slice(),
            key.point,
            issuer.cofactor.as_slice(),
        )
    } else {
        key_of(alloc, key.algorithm, key.domain, key.point, cert.cofactor)
    }
}

fn row_below(alloc: Global, party: u32, cert: &CertView, issuer: &CaPart) -> Result<Row, NoMemory>
    requires cert { IsRead cert.now }
    requires issuer { IsStorableKey issuer.now.key }
    ensures row { IfOk result (λ r. r ≡ words.ca_row party cert.now.whole.now (seen_cert cert.now).body issuer.now) }
    ensures storable { IfOk result IsStorable }
{
    let key = whole_key(alloc, cert, &issuer.key)?;
    let settled = settled_by(alloc, cert)?;
    Ok(Row {
        desk: party,
        reference: cert.holder,
        part: Part::Ca(CaPart { key, settled }),
    })
}

// The row that the keeper says is there, by its bytes.
fn answer_again(row: Row, bytes: &[u8], reference: Reference) -> TakenCa
    ensures { result ≡ words.kept_answer bytes.now reference row }
{
    let Row {
        desk: _,
        reference: _,
        part,
    } = row;
    let Part::Ca(ca) = part else {
        return TakenCa::Held(reference);
    };
    if is_same(ca.settled.certificate.as_slice(), bytes) {
        TakenCa::Held(reference)
    } else {
        TakenCa::Refused(CaRule::Differs(ca.settled.certificate))
    }
}

// What is answered to an adding. Where one has just looked, a keeper that tells its rows has none of that key; the
// answer of another one is passed on as what its row says.
fn answer_added(added: Added, bytes: &[u8], reference: Reference) -> TakenCa
    ensures { result ≡ words.added_answer bytes.now reference added }
{
    match added {
        Added::New => TakenCa::Stored(reference),
        Added::There(row) => answer_again(row, bytes, reference),
        Added::Full => TakenCa::Refused(CaRule::Full),
    }
}

// Adds the row of a certificate below its issuer.
fn keep_below<B: Keeper>(
    alloc: Global,
    party: u32,
    cert: &CertView,
    issuer: &CaPart,
    keeper: &mut B,
) -> Result<TakenCa, HolderFault>
    requires cert { IsRead cert.now }
    requires issuer { IsStorableKey issuer.now.key }
    ensures told { Told (B.rows keeper.old) (B.rows keeper.new) (λ before after. words.AddsBelow party
        cert.now.whole.now (seen_cert cert.now).body issuer.now before after result) }
    ensures answered { IfOk result (IsAddedAs party cert.now.whole.now cert.now.holder) }
    ensures cause { KeeperCaused (B.faults keeper.old) (B.faults keeper.new) result }
{
    let Ok(row) = row_below(alloc, party, cert, issuer) else {
        return Err(HolderFault::NoMemory);
    };
    let added = add_row(alloc, &row, keeper)?;
    Ok(answer_added(added, cert.whole, cert.holder))
}

// A certificate that was read.
fn take_read<B: Keeper, P: SignatureProvider>(
    alloc: Global,
    party: u32,
    cert: &CertView,
    keeper: &mut B,
    provider: &mut P,
) -> Result<TakenCa, HolderFault>
    requires { IsRead cert.now }
    ensures took { Told (B.rows keeper.old) (B.rows keeper.new) (λ before after. TakesCaRead (P.says provider.old) party
        cert.now.whole.now (Ok (seen_cert cert.now)) before after result) }
    ensures answered { IfOk result (TookCaBy (P.says provider.old) party cert.now.whole.now (seen_cert cert.now)) }
    ensures cause { HolderCause NoneMissing (B.faults keeper.old, B.faults keeper.new) (
      P.faults provider.old,
      P.faults
          provider.new,
    ) result }
    ensures says { P.says provider.new ≡ P.says provider.old }
    ensures holds { P.holds provider.new ≡ P.holds provider.old }
    ensures signed { P.signed provider.new ≡ P.signed provider.old }
{
    let seen = see(alloc, party, cert, keeper)?;
    match judge(cert, seen, provider) {
        Err(_) => Err(HolderFault::ProviderFault),
        Ok(JudgedCa::Answered(answer)) => Ok(answer),
        Ok(JudgedCa::Below(issuer)) => keep_below(alloc, party, cert, &issuer, keeper),
    }
}

/// Takes a certificate of an authority.
///
/// The first rule that is broken refuses it, in the order of [`CaRule`]. Between the rules 1 and 2 a certificate that
/// the party keeps under that reference, byte for byte, is `Held`. Where none is broken, a row is added: the
/// certificate with its authority reference, template and dates, and its key with its own domain and cofactor, or its
/// issuer's where it is elliptic and has no domain. No other row changes.
///
/// A keeper that tells nothing may say to the adding that a row is there, which is `Held` or `Differs` by its bytes.
///
/// # Errors
///
/// `KeeperFault` only where the keeper's count of faults rose, and then the row may stand; `ProviderFault` only where
/// the provider's rose; `NoMemory`. Nothing is signed, so `NoKey` never comes.
pub fn take_ca<B: Keeper, P: SignatureProvider>(
    alloc: Global,
    party: u32,
    bytes: &[u8],
    keeper: &mut B,
    provider: &mut P,
) -> Result<TakenCa, HolderFault>
    // Where the rows are told after the call: the answer that is due by them, and the row that was added.
    ensures took { Told (B.rows keeper.old) (B.rows keeper.new) (λ before after. TakesCa (P.says provider.old) party
        bytes.now before after result) }
    // Whether they are told or not, the answer is due by rows as they were asked for.
    ensures answered { IfOk result (TookCaAsked (P.says provider.old) party bytes.now) }
    ensures cause { HolderCause NoneMissing (B.faults keeper.old, B.faults keeper.new) (
      P.faults provider.old,
      P.faults
          provider.new,
    ) result }
    ensures says { P.says provider.new ≡ P.says provider.old }
    ensures holds { P.holds provider.new ≡ P.holds provider.old }
    ensures signed { P.signed provider.new ≡ P.signed provider.old }
{
    match view_cert(bytes) {
        Err(refusal) => Ok(TakenCa::Refused(CaRule::Syntax(refusal))),
        Ok(cert) => take_read(alloc, party, &cert, keeper, provider),
    }
}
