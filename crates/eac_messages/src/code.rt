// Return codes.
ghost use Rattle.std.specs.Prelude.{◌≡◌};
ghost use Rattle.eac_messages.specs.Code.{code_text, code_named, carries_certificates};

/// A return code.
#[derive(Clone, Copy, Debug, PartialEq, Eq)]
pub enum Code {
    /// The certificate that was issued or kept, or a list of certificates, is in the reply.
    CertAvailable,
    /// Certificates were received without a fault.
    Received,
    /// The request can't be read, or the body isn't a message.
    Syntax,
    /// The request is refused by another rule, or this party doesn't serve the call.
    NotAccepted,
    /// A certificate that the request rests on has expired.
    Expired,
    /// The domain parameters are other ones.
    Domain,
    /// The inner signature doesn't verify.
    Inner,
    /// The outer signature doesn't verify.
    Outer,
    /// A fault of the keeper or of the provider, or a key that isn't held.
    Internal,
}

impl Code {
    /// The text of the member `code`.
    pub fn as_str(&self) -> &'static str
        ensures { result.now ≡ code_text self.now }
    {
        match self {
            Code::CertAvailable => "ok_cert_available",
            Code::Received => "ok_received",
            Code::Syntax => "failure_syntax",
            Code::NotAccepted => "failure_request_not_accepted",
            Code::Expired => "failure_expired",
            Code::Domain => "failure_domain_parameters",
            Code::Inner => "failure_inner_signature",
            Code::Outer => "failure_outer_signature",
            Code::Internal => "failure_internal_error",
        }
    }

    /// Whether a reply under this code has certificates.
    pub fn carries_certificates(&self) -> bool
        ensures { result ≡ carries_certificates self.now }
    {
        matches!(self, Code::CertAvailable)
    }
}

/// The code with this text.
pub fn code_named(text: &str) -> Option<Code>
    ensures { result ≡ code_named text.now }
{
    match text {
        "ok_cert_available" => Some(Code::CertAvailable),
        "ok_received" => Some(Code::Received),
        "failure_syntax" => Some(Code::Syntax),
        "failure_request_not_accepted" => Some(Code::NotAccepted),
        "failure_expired" => Some(Code::Expired),
        "failure_domain_parameters" => Some(Code::Domain),
        "failure_inner_signature" => Some(Code::Inner),
        "failure_outer_signature" => Some(Code::Outer),
        "failure_internal_error" => Some(Code::Internal),
        _ => None,
    }
}
