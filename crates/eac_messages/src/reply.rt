// Replies to calls.
use crate::Code;
use eac_base::{ByteLists, Octets};

/// A reply, with the identifier of its call.
#[derive(Debug, Drop)]
pub struct Reply {
    pub id: Octets,
    pub code: Code,
    /// The rule that a refused request breaks, from 1 to 14.
    pub rule: Option<u8>,
    /// None but under [`Code::CertAvailable`].
    pub certificates: ByteLists,
}
