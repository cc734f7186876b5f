// Why bytes are no certificate.
ghost use Rattle.std.specs.Prelude.{◌≡◌};
ghost use Rattle.cvc_grammar.specs.ReadingOrder.{refusal_number};

use chat_rights::TemplateRefusal;
use cv_dates::DateRefusal;
use eac_base::NoMemory;
use holder_reference::RefRefusal;
use std::error::Error;
use std::fmt;
use tlv_core::TlvRefusal;

/// Why a part of the input doesn't begin with the object that is due there.
#[derive(Clone, Copy, Debug, PartialEq, Eq)]
pub enum ObjectFault {
    /// No object can be read, also where nothing is left.
    Tlv(TlvRefusal),
    /// The object has another tag.
    OtherTag,
    /// The object is a signature of no bytes or of more than 512.
    Size,
}

/// The first step of the reading order that fails.
#[derive(Clone, Copy, Debug, PartialEq, Eq)]
pub enum CvcRefusal {
    /// The input has more bytes than its kind may have: 1,792 for a certificate, 2,304 for a request.
    TooLong,
    /// The object that is due isn't there. The offset is the place of its first byte in the input.
    Object { offset: u64, fault: ObjectFault },
    /// The profile is another one than 00.
    Profile,
    /// The key's content isn't in the key's grammar, or its whole object has more than 1,024 bytes.
    Key,
    /// A reference isn't one.
    Reference(RefRefusal),
    /// The authorization template isn't one.
    Template(TemplateRefusal),
    /// A date isn't one.
    Date(DateRefusal),
    /// Bytes follow the last object of the input, of its content or of the body.
    Trailing,
}

impl CvcRefusal {
    /// 1 to 8, in the order of the variants.
    pub fn number(&self) -> u8
        ensures { result ≡ refusal_number self.now }
    {
        match self {
            CvcRefusal::TooLong => 1,
            CvcRefusal::Object { .. } => 2,
            CvcRefusal::Profile => 3,
            CvcRefusal::Key => 4,
            CvcRefusal::Reference(_) => 5,
            CvcRefusal::Template(_) => 6,
            CvcRefusal::Date(_) => 7,
            CvcRefusal::Trailing => 8,
        }
    }
}

impl From<RefRefusal> for CvcRefusal {
    ghost use Rattle.cvc_grammar.specs.declared.refusal.CvcRefusal.{CvcRefusal};

    ghost from_gives = { λ e refusal. refusal ≡ CvcRefusal.Reference e };

    fn from(e: RefRefusal) -> Self {
        CvcRefusal::Reference(e)
    }
}

impl From<TemplateRefusal> for CvcRefusal {
    ghost use Rattle.cvc_grammar.specs.declared.refusal.CvcRefusal.{CvcRefusal};

    ghost from_gives = { λ e refusal. refusal ≡ CvcRefusal.Template e };

    fn from(e: TemplateRefusal) -> Self {
        CvcRefusal::Template(e)
    }
}

impl From<DateRefusal> for CvcRefusal {
    ghost use Rattle.cvc_grammar.specs.declared.refusal.CvcRefusal.{CvcRefusal};

    ghost from_gives = { λ e refusal. refusal ≡ CvcRefusal.Date e };

    fn from(e: DateRefusal) -> Self {
        CvcRefusal::Date(e)
    }
}

/// Why no owned copy was read.
#[derive(Clone, Copy, Debug, PartialEq, Eq)]
pub enum ReadCvc {
    /// The input is no certificate or request.
    Refused(CvcRefusal),
    /// Memory is wanting for the copy.
    NoMemory,
}

impl From<NoMemory> for ReadCvc {
    ghost use Rattle.cvc_grammar.specs.declared.refusal.ReadCvc.{ReadCvc};

    ghost from_gives = { λ _ refusal. refusal ≡ ReadCvc.NoMemory };

    fn from(_: NoMemory) -> Self {
        ReadCvc::NoMemory
    }
}

impl fmt::Display for ObjectFault {
    fn fmt<W: fmt::Write>(&self, f: &mut fmt::Formatter<W>) -> fmt::Result {
        f.write_str(match self {
            ObjectFault::Tlv(_) => "no object can be read",
            ObjectFault::OtherTag => "another object stands in its place",
            ObjectFault::Size => "a signature has 1 to 512 bytes",
        })
    }
}

impl fmt::Display for CvcRefusal {
    fn fmt<W: fmt::Write>(&self, f: &mut fmt::Formatter<W>) -> fmt::Result {
        match self {
            CvcRefusal::TooLong => f.write_str("too many bytes"),
            CvcRefusal::Object { offset, fault } => write!(f, "at byte {offset}: {fault}"),
            CvcRefusal::Profile => f.write_str("the profile isn't 00"),
            CvcRefusal::Key => f.write_str("the key isn't one, or has more than 1,024 bytes"),
            CvcRefusal::Reference(_) => f.write_str("a reference isn't one"),
            CvcRefusal::Template(_) => f.write_str("the authorization template isn't one"),
            CvcRefusal::Date(_) => f.write_str("a date isn't one"),
            CvcRefusal::Trailing => f.write_str("bytes follow the last object"),
        }
    }
}

impl fmt::Display for ReadCvc {
    fn fmt<W: fmt::Write>(&self, f: &mut fmt::Formatter<W>) -> fmt::Result {
        match self {
            ReadCvc::Refused(refusal) => write!(f, "{refusal}"),
            ReadCvc::NoMemory => f.write_str("out of memory"),
        }
    }
}

impl Error for ObjectFault {}

impl Error for CvcRefusal {}

impl Error for ReadCvc {}
