// What is promised of runs. Each law is the contract of a function that does nothing.
ghost use Rattle.headline.specs.Sentences.{RunsKeepTheirWord};
ghost use Rattle.headline.specs.Sentences.{OneCertificateForANumber, AnsweredFromItsFirstDelivery, TheFirstBrokenRule};
ghost use Rattle.headline.specs.Sentences.{AGrantIsTheIntersection};
ghost use Rattle.headline.specs.Sentences.{AcknowledgedIsNeverLost, DaysNeverFall, AReplacedPointNeverReturns};
ghost use Rattle.headline.specs.Sentences.{NoFaultWithoutAFailure, NoKeyIsEverMissing, RequestsAreAnswered};
ghost use Rattle.headline.specs.Sentences.{GoodChainsAreGranted};

use chip_slots::ChipDisk;

/// A run is all that the headline says.
pub fn runs_keep_their_word<D: ChipDisk>(disks: &[D])
    ensures { RunsKeepTheirWord D.ChipDisk }
{
    let _ = disks;
}

// ---- request numbers

/// Where the keeper tells its rows and had none: at no desk two certificates are kept for one request number.
pub fn one_certificate_for_a_number<D: ChipDisk>(disks: &[D])
    ensures { OneCertificateForANumber D.ChipDisk }
{
    let _ = disks;
}

/// Where the keeper tells its rows and had none: each kept certificate was made in one delivery of its request, and each later
/// delivery of that request that was answered was answered by that certificate.
pub fn answered_from_its_first_delivery<D: ChipDisk>(disks: &[D])
    ensures { AnsweredFromItsFirstDelivery D.ChipDisk }
{
    let _ = disks;
}

/// Where the keeper tells its rows and had none: a desk refuses a request for which it keeps no certificate, by the first rule
/// that the request breaks with what the desk keeps.
pub fn the_first_broken_rule<D: ChipDisk>(disks: &[D])
    ensures { TheFirstBrokenRule D.ChipDisk }
{
    let _ = disks;
}

// ---- grants

/// A grant has the rights that stand in the trust point, in the verifier and in the terminal of the chain that the chip verified
/// in that event, and the chip's day, whatever is told.
pub fn a_grant_is_the_intersection<D: ChipDisk>(disks: &[D])
    ensures { AGrantIsTheIntersection D.ChipDisk }
{
    let _ = disks;
}

// ---- chips

/// Where a chip's disk tells and was blank: whatever a crash leaves of it from an acknowledgement on reads as the trust after a
/// prefix of its acts that holds the import that was acknowledged.
pub fn acknowledged_is_never_lost<D: ChipDisk>(disks: &[D])
    ensures { AcknowledgedIsNeverLost D.ChipDisk }
{
    let _ = disks;
}

/// Where a chip's disk tells and was blank: whatever a crash leaves of it reads as a trust of no earlier day than an opening
/// before has read.
pub fn days_never_fall<D: ChipDisk>(disks: &[D])
    ensures { DaysNeverFall D.ChipDisk }
{
    let _ = disks;
}

/// Where a chip's disk tells and was blank: a trust point that one opening has read and a later one hasn't is in nothing that a
/// crash leaves from then on.
pub fn a_replaced_point_never_returns<D: ChipDisk>(disks: &[D])
    ensures { AReplacedPointNeverReturns D.ChipDisk }
{
    let _ = disks;
}

// ---- completeness

/// A fault of keeper, provider or chip is told only where that object's count rose within the event, whatever is told.
pub fn no_fault_without_a_failure<D: ChipDisk>(disks: &[D])
    ensures { NoFaultWithoutAFailure D.ChipDisk }
{
    let _ = disks;
}

/// Where the keeper tells its rows and had none, no answer tells of a key that isn't held.
pub fn no_key_is_ever_missing<D: ChipDisk>(disks: &[D])
    ensures { NoKeyIsEverMissing D.ChipDisk }
{
    let _ = disks;
}

/// Where the keeper tells its rows and had none: a delivered request is answered by its certificate or by the first rule that it
/// breaks, where no count rose within the event and memory wasn't wanting.
pub fn requests_are_answered<D: ChipDisk>(disks: &[D])
    ensures { RequestsAreAnswered D.ChipDisk }
{
    let _ = disks;
}

/// Where a chip's disk tells and was blank: a chain that is good for the trust that the chip reads, as the provider said when the
/// event began, is granted, or the chip's memory is worn, where neither disk nor provider failed and memory wasn't wanting.
pub fn good_chains_are_granted<D: ChipDisk>(disks: &[D])
    ensures { GoodChainsAreGranted D.ChipDisk }
{
    let _ = disks;
}
