// What came of the making of a request.
use eac_base::Octets;
use holder_reference::Reference;

/// What came of the making of a request.
#[derive(Debug, Drop)]
pub enum Made {
    /// This request was made, for a new key under this reference.
    Request { reference: Reference, bytes: Octets },
    /// The party has no number left.
    Exhausted,
    /// The party knows no fit authority.
    NoAuthority,
}
