// Why a body is no message and no reply.
use eac_base::NoMemory;
use std::error::Error;
use std::fmt;

/// A member of a message or of a reply.
#[derive(Clone, Copy, Debug, PartialEq, Eq)]
pub enum Member {
    Call,
    Request,
    Certificates,
    MessageId,
    Code,
    Rule,
}

impl Member {
    /// The name of the member.
    pub fn as_str(&self) -> &'static str {
        match self {
            Member::Call => "call",
            Member::Request => "request",
            Member::Certificates => "certificates",
            Member::MessageId => "messageID",
            Member::Code => "code",
            Member::Rule => "rule",
        }
    }
}

/// The first test that fails, or want of memory, which says nothing of the body.
#[derive(Clone, Copy, Debug, PartialEq, Eq)]
pub enum MessageRefusal {
    /// The body isn't the JSON text of an object.
    NotJson,
    /// The member is missing, or of another kind or value.
    Member(Member),
    /// The member, or a text in it, isn't base64.
    Base64(Member),
    /// Memory is wanting.
    NoMemory,
}

impl fmt::Display for MessageRefusal {
    fn fmt<W: fmt::Write>(&self, f: &mut fmt::Formatter<W>) -> fmt::Result {
        match self {
            MessageRefusal::NotJson => f.write_str("the body isn't the JSON text of an object"),
            MessageRefusal::Member(member) => {
                write!(
                    f,
                    "the member {} is missing or of another kind or value",
                    member.as_str()
                )
            }
            MessageRefusal::Base64(member) => write!(
                f,
                "the member {} isn't base64",
                member.as_str()
            ),
            MessageRefusal::NoMemory => f.write_str("out of memory"),
        }
    }
}

impl Error for MessageRefusal {}

impl From<NoMemory> for MessageRefusal {
    ghost use Rattle.std.specs.Prelude.{◌≡◌};
    ghost use Rattle.eac_messages.specs.declared.refusal.MessageRefusal.{MessageRefusal};

    ghost from_gives = { λ _ refusal. refusal ≡ MessageRefusal.NoMemory };

    fn from(_: NoMemory) -> Self {
        MessageRefusal::NoMemory
    }
}
