// The reply to a call, by what came of it.
ghost use Rattle.std.specs.Prelude.{◌≡◌, [], ◌∷◌, Some, IfOk};
ghost use Rattle.desk_core.specs.Replies as due;
ghost use Rattle.desk_core.specs.Replies.{IsRead, IsNumbered};
ghost use Rattle.issue_core.specs.Issuing.Readings as readings;

use crate::{Event1, Served, code_of};
use cvc_grammar::view_request;
use eac_base::{ByteLists, NoMemory, Octets};
use eac_messages::{Code, Reply};
use holder_core::{CertList, HolderFault, Received};
use holder_reference::Reference;
use issue_core::{Answer, IssueFault, Rule};
use std::alloc::Global;

// A code alone.
fn coded(alloc: Global, id: &[u8], code: Code, event: Event1) -> Result<Served, NoMemory>
    ensures { IfOk result (λ served. served ≡ due.coded id.now code event) }
{
    let reply = Reply {
        id: Octets::from_slice(alloc, id)?,
        code,
        rule: None,
        certificates: ByteLists::new(alloc),
    };
    Ok(Served { reply, event })
}

// Certificates.
fn given(
    alloc: Global,
    id: &[u8],
    certificates: CertList,
    event: Event1,
) -> Result<Served, NoMemory>
    ensures { IfOk result (λ served. served ≡ due.given id.now certificates event) }
{
    let reply = Reply {
        id: Octets::from_slice(alloc, id)?,
        code: Code::CertAvailable,
        rule: None,
        certificates,
    };
    Ok(Served { reply, event })
}

// A rule.
fn refused(alloc: Global, id: &[u8], rule: &Rule) -> Result<Served, NoMemory>
    ensures { IfOk result (λ served. served ≡ due.refused id.now rule.now) }
{
    let number = rule.number();
    let reply = Reply {
        id: Octets::from_slice(alloc, id)?,
        code: code_of(rule),
        rule: Some(number),
        certificates: ByteLists::new(alloc),
    };
    Ok(Served {
        reply,
        event: Event1::Refused(number),
    })
}

// A fault.
fn broken_off(alloc: Global, id: &[u8], fault: HolderFault) -> Result<Served, NoMemory>
    ensures { IfOk result (λ served. due.broken_off id.now fault ≡ Some served) }
{
    match fault {
        HolderFault::NoMemory => Err(NoMemory),
        HolderFault::KeeperFault | HolderFault::ProviderFault | HolderFault::NoKey(_) => {
            coded(alloc, id, Code::Internal, Event1::Fault(fault))
        }
    }
}

fn fault_from(fault: &IssueFault) -> HolderFault
    ensures { result ≡ due.fault_from fault.now }
{
    match fault {
        IssueFault::KeeperFault => HolderFault::KeeperFault,
        IssueFault::ProviderFault => HolderFault::ProviderFault,
        IssueFault::NoKey(reference) => HolderFault::NoKey(*reference),
        IssueFault::NoMemory => HolderFault::NoMemory,
    }
}

// The number of a request that can be read.
fn number_of(request: &[u8]) -> Reference
    requires { IsRead request.now }
    ensures { result ≡ readings.number_of request.now }
{
    match view_request(request) {
        Ok(view) => view.holder,
        Err(_) => unreachable!(),
    }
}

fn one(alloc: Global, certificate: Octets) -> Result<CertList, NoMemory>
    ensures { IfOk result (λ list. list ≡ certificate ∷ []) }
{
    let mut list = ByteLists::new(alloc);
    list.push_octets(certificate)?;
    Ok(list)
}

/// The reply to a request, by what came of it. A request that was answered with a certificate can be read (the
/// condition).
pub fn reply_to_request(
    alloc: Global,
    id: &[u8],
    request: &[u8],
    issued: Result<Answer, IssueFault>,
) -> Result<Served, NoMemory>
    requires { IsNumbered request.now issued }
    ensures { IfOk result (λ served. due.request_served id.now request.now issued ≡ Some served) }
{
    match issued {
        Ok(Answer::Issued(certificate)) => {
            let event = Event1::Issued(number_of(request));
            given(alloc, id, one(alloc, certificate)?, event)
        }
        Ok(Answer::Kept(certificate)) => {
            let event = Event1::Kept(number_of(request));
            given(alloc, id, one(alloc, certificate)?, event)
        }
        Ok(Answer::Refused(rule)) => refused(alloc, id, &rule),
        Err(fault) => broken_off(alloc, id, fault_from(&fault)),
    }
}

/// The reply to a question for certificates, by the list or the fault.
pub fn reply_to_list(
    alloc: Global,
    id: &[u8],
    listed: Result<CertList, HolderFault>,
) -> Result<Served, NoMemory>
    ensures { IfOk result (λ served. due.list_served id.now listed ≡ Some served) }
{
    match listed {
        Ok(list) => {
            let event = Event1::Listed(list.len() as u64);
            given(alloc, id, list, event)
        }
        Err(fault) => broken_off(alloc, id, fault),
    }
}

/// The reply to certificates that came in, by what came of them.
pub fn reply_to_receipt(alloc: Global, id: &[u8], received: Received) -> Result<Served, NoMemory>
    ensures { IfOk result (λ served. due.received_served id.now received ≡ Some served) }
{
    match received.fault {
        None => coded(alloc, id, Code::Received, Event1::Received(received)),
        Some(HolderFault::NoMemory) => {
            drop(received);
            Err(NoMemory)
        }
        Some(HolderFault::KeeperFault | HolderFault::ProviderFault | HolderFault::NoKey(_)) => {
            coded(alloc, id, Code::Internal, Event1::Received(received))
        }
    }
}

/// The reply to a call that the party doesn't serve.
pub fn decline(alloc: Global, id: &[u8]) -> Result<Served, NoMemory>
    ensures { IfOk result (λ served. served ≡ due.declined id.now) }
{
    coded(alloc, id, Code::NotAccepted, Event1::NotServed)
}
