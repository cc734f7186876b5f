// What was seen of the rows for one request.
use crate::issuing::signer_row::Signer;
use crate::issuing::voucher_row::Voucher;

/// A holder's issued rows at a desk.
#[derive(Clone, Copy, Debug)]
pub struct Held {
    /// How many there are.
    pub all: usize,
    /// How many of them haven't expired.
    pub live: usize,
}

/// All that the rules 4 to 12 look at.
#[derive(Debug, Drop)]
pub struct Seen {
    /// The own row that signs.
    pub signer: Option<Signer>,
    /// The row that vouches for the outer signature.
    pub voucher: Option<Voucher>,
    pub held: Held,
    /// How many issued rows the desk has.
    pub count: u64,
}
