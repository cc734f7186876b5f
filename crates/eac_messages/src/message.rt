// Calls to a party.
ghost use Rattle.std.specs.Prelude.{◌≡◌};
ghost use Rattle.eac_messages.specs.Message.{call_name, message_call, message_id};

use eac_base::{ByteLists, Octets};

/// A call, with the identifier that its reply repeats, where it isn't empty.
#[derive(Debug, Drop)]
pub enum Message {
    /// Asks for a certificate over this request.
    RequestCertificate { id: Octets, request: Octets },
    /// Hands over certificates.
    SendCertificates { id: Octets, certificates: ByteLists },
    /// Asks for the certificates of authorities.
    GetCaCertificates { id: Octets },
}

/// What a call asks for.
#[derive(Clone, Copy, Debug, PartialEq, Eq)]
pub enum Call {
    RequestCertificate,
    SendCertificates,
    GetCaCertificates,
}

impl Call {
    /// The text of the member `call`.
    pub fn as_str(&self) -> &'static str
        ensures { result.now ≡ call_name self.now }
    {
        match self {
            Call::RequestCertificate => "RequestCertificate",
            Call::SendCertificates => "SendCertificates",
            Call::GetCaCertificates => "GetCACertificates",
        }
    }
}

impl Message {
    /// What the message asks for.
    pub(crate) fn call(&self) -> Call
        ensures { result ≡ message_call self.now }
    {
        match self {
            Message::RequestCertificate { .. } => Call::RequestCertificate,
            Message::SendCertificates { .. } => Call::SendCertificates,
            Message::GetCaCertificates { .. } => Call::GetCaCertificates,
        }
    }

    /// The identifier that the reply repeats.
    pub fn id(&self) -> &[u8]
        ensures { result.now ≡ message_id self.now }
    {
        match self {
            Message::RequestCertificate { id, .. }
            | Message::SendCertificates { id, .. }
            | Message::GetCaCertificates { id } => id.as_slice(),
        }
    }
}
