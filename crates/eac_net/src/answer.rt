// What is answered to events.
use crate::packet::Packet;
use chip_events::{ImportAnswer, Looked, MakeAnswer, Shown};
use chip_slots::ChipRefusal;
use cvca_desk::{Founded, Linked};
use desk_core::Event1;
use eac_messages::Code;
use holder_core::Received;
use holder_reference::Reference;
use issue_core::RegisterAnswer;

/// A fault of the outside, or a key that isn't held.
#[derive(Clone, Copy, Debug, PartialEq, Eq)]
pub enum Fault {
    Keeper,
    Provider,
    /// The disk of the event's chip.
    Disk,
    /// The key of the row with this reference, which is the one to sign with.
    Key(Reference),
}

/// What came of a founding certificate that was carried by hand.
#[derive(Clone, Copy, Debug, PartialEq, Eq)]
pub enum Trusted {
    /// It is stored under this reference.
    Stored(Reference),
    /// A certificate is there already under this reference.
    Held(Reference),
    /// The authority has no founding certificate.
    Unfounded,
    /// The party has no room for a further authority.
    Full,
}

/// What came of a request that was to be sent.
#[derive(Clone, Copy, Debug, PartialEq, Eq)]
pub enum Applied {
    /// The packet of this number has the request of this reference.
    Sent { packet: u64, reference: Reference },
    /// The party has no number left.
    Exhausted,
    /// The party knows no certificate of the authority by that root, with a key that a new one can be made like.
    NoAuthority,
}

/// What came of a reply that came to its party.
#[derive(Debug, Drop)]
pub enum Replied {
    /// It is no reply.
    Malformed,
    /// It has this code and no certificates.
    Noted(Code),
    /// Its certificates were taken so.
    Took(Received),
}

/// What came of a chain that was to be shown to a chip.
#[derive(Debug, Drop)]
pub enum Presented {
    /// There is no chip, or its disk failed.
    NotOpened(ChipRefusal),
    /// The terminal has no chain for the chip's points.
    NoChain,
    /// The chain was shown.
    Shown(Shown),
}

/// What is answered to an event.
#[derive(Debug, Drop)]
pub enum Answer {
    /// To a `day`: nothing.
    Silent,
    /// To an `ask`: what the register answered for this reference.
    Registered {
        reference: Reference,
        answer: RegisterAnswer,
    },
    /// To a `found`.
    Founded(Founded),
    /// To a `link`.
    Linked(Linked),
    /// To a `trust`.
    Trusted(Trusted),
    /// To an `apply`.
    Applied(Applied),
    /// The packet of this number was sent.
    Sent {
        packet: u64,
    },
    /// The event was broken off.
    Failed(Fault),
    /// A call came: what its party did with it, none where it is no message, and the number of the reply.
    Called {
        event: Option<Event1>,
        reply: u64,
    },
    /// A reply came.
    Replied(Replied),
    /// No packet of that number was sent.
    Unsent,
    /// To a `make`.
    Made(MakeAnswer),
    /// To a `present`.
    Presented(Presented),
    /// To an `import`.
    Imported(ImportAnswer),
    /// To a `look`.
    Looked(Looked),
}

/// What came of an event: its answer, and the packet that it sends.
#[derive(Debug, Drop)]
pub struct Happened {
    pub answer: Answer,
    pub sent: Option<Packet>,
}
