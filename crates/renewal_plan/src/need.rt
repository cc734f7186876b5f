// What a plan has to meet.
use crate::lists::{DayList, SpanList};
use cv_dates::Day;

/// The days on which a holder needs a certificate, and what is known of the certificates to come.
#[derive(Debug, Drop)]
pub struct Need {
    /// The first day that is to be covered.
    pub first: Day,
    /// The last day that is to be covered.
    pub last: Day,
    /// A certificate is valid for so many days after the day on which it is made, where its authority's is.
    pub days: u32,
    /// It is made only where at least so many are left to it.
    pub minimum: u32,
    /// Before a renewal fewer than so many certificates are valid.
    pub live: u32,
    /// The last day of the certificate that the holder has.
    pub have: Option<Day>,
    /// The authority's certificates: first and last day of each.
    pub authorities: SpanList,
    /// Days on which nobody renews.
    pub closed: DayList,
}
