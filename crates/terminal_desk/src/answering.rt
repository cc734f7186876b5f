// What an inspection system answers to a call.
ghost use Rattle.desk_core.specs.Serving.{moment};
ghost use Rattle.terminal_desk.specs.Answering.{IsAnswered};

use cv_dates::Day;
use desk_core::{Served, answer_receipt, decline};
use eac_base::NoMemory;
use eac_messages::Message;
use keeper::Keeper;
use policy_limits::Setup;
use signature_provider::SignatureProvider;
use std::alloc::Global;

/// Answers a call for the terminal with this number: it takes certificates, and serves nothing else. The reply repeats
/// the call's identifier.
///
/// Setup and day are those that each desk is asked with; taking certificates asks for neither.
///
/// # Errors
///
/// [`NoMemory`]. Certificates before the want may be taken, and are so again.
pub fn answer<B: Keeper, P: SignatureProvider>(
    alloc: Global,
    _setup: &Setup,
    desk: u32,
    _day: Day,
    message: &Message,
    keeper: &mut B,
    provider: &mut P,
) -> Result<Served, NoMemory>
    ensures { IsAnswered desk message.now
        (moment B.Keeper P.SignatureProvider keeper.old provider.old)
        (moment B.Keeper P.SignatureProvider keeper.new provider.new) result }
{
    match message {
        Message::SendCertificates { id, certificates } => {
            answer_receipt(alloc, desk, id.as_slice(), certificates, keeper, provider)
        }
        Message::RequestCertificate { id, .. } | Message::GetCaCertificates { id } => {
            decline(alloc, id.as_slice())
        }
    }
}
