// What a desk did with a call.
use eac_messages::Reply;
use holder_core::{HolderFault, Received};
use holder_reference::Reference;

/// What a journal tells of a call that came to a desk.
#[derive(Debug, Drop)]
pub enum Event1 {
    /// A certificate was issued under this reference.
    Issued(Reference),
    /// The one that was issued under this reference is given again.
    Kept(Reference),
    /// This rule is the first that the request breaks, 1 to 14.
    Refused(u8),
    /// So many certificates are handed out.
    Listed(u64),
    /// Certificates came in.
    Received(Received),
    /// The party doesn't serve this call.
    NotServed,
    /// The call was broken off.
    Fault(HolderFault),
}

/// The reply to a call, and what is told of it.
#[derive(Debug, Drop)]
pub struct Served {
    pub reply: Reply,
    pub event: Event1,
}
