// What holds of items and histories. Each law is the contract of a function that does nothing.
ghost use Rattle.eac_net.specs.Completeness.{RequestsAreServed};
ghost use Rattle.eac_net.specs.Grants.{GrantsAreOfTheChain, GoodChainsAreGranted, GoodChainsOfRows};
ghost use Rattle.eac_net.specs.Laws.{NothingYet, OneItem, SoFarIsRun, VerdictsAreTrue, ProvidersGrow, SaidArePassed};
ghost use Rattle.eac_net.specs.Laws.{FaultsHaveCauses, NoKeyIsMissing, TurnsKeepLaw};
ghost use Rattle.eac_net.specs.Laws.{AcksAreOwn, AcksAreOfItems, EachItem, TakenWasAsked};

use chip_events::laws::chips_survive_crashes;
use chip_slots::ChipDisk;

/// In a new world no item has run.
pub fn nothing_yet<D: ChipDisk>(disks: &[D])
    ensures { NothingYet D.ChipDisk }
{
    let _ = disks;
}

/// What ran so far goes on by one event, where each before it was answered.
pub fn one_item<D: ChipDisk>(disks: &[D])
    ensures { OneItem D.ChipDisk }
{
    let _ = disks;
}

/// What ran so far is a run from the first objects to those that stand now.
pub fn run_of<D: ChipDisk>(disks: &[D])
    ensures { SoFarIsRun D.ChipDisk }
{
    chips_survive_crashes();
    let _ = disks;
}

/// What got a yes in a run the provider says at its end, and what got a no it didn't say at its beginning.
pub fn verdicts_are_true()
    ensures { VerdictsAreTrue }
{}

/// Over a run the provider goes back on nothing that it said, and on no key that it held.
pub fn providers_grow()
    ensures { ProvidersGrow }
{}

/// What is known of one item holds of each item of a run: a law of items is one of runs.
pub fn each_item_answers()
    ensures { EachItem }
{}

/// Where the provider says each signature that stands made in rows, none of them gets a no, whoever asks.
pub fn said_are_passed()
    ensures { SaidArePassed }
{}

/// A fault of keeper or provider, or of the disk of the event's chip, is told only where that object's count rose within the
/// event.
pub fn faults_have_causes()
    ensures { FaultsHaveCauses }
{}

/// Where the rows are told no answer tells of a key that isn't held.
pub fn no_key_is_missing()
    ensures { NoKeyIsMissing }
{}

/// Each turn from lawful rows leaves lawful ones.
pub fn turns_keep_law()
    ensures { TurnsKeepLaw }
{}

/// Where the rows are told, no count rose and memory wasn't wanting, a request that comes to an issuing desk is answered
/// by the certificate that the desk keeps for it, else by the first rule that it breaks, else by a new certificate.
pub fn requests_are_served()
    ensures { RequestsAreServed }
{}

/// The imports that an event acknowledges were made on its chip, so that those of one chip are those of its events.
pub fn acknowledgements_are_own()
    ensures own { AcksAreOwn }
    ensures items { AcksAreOfItems }
{}

/// An import that was answered, and newly took its bytes, was asked for in its event: the provider said yes to the signature
/// of the certificate that they are.
pub fn taken_was_asked()
    ensures { TakenWasAsked }
{}

/// A grant of `present` is of the chain that was handed for the points that the chip read: each certificate that the chip
/// accepted got the provider's yes under its issuer's key, and the rights are those that stand in the last verifier, in the
/// last terminal after it and in the verifier's trust point.
pub fn grants_are_of_the_chain()
    ensures { GrantsAreOfTheChain }
{}

/// Where neither disk nor provider failed and memory wasn't wanting, a good chain that was handed is granted, or the
/// chip's memory is worn.
pub fn good_chains_are_granted()
    ensures { GoodChainsAreGranted }
{}

/// The same where the rows are told: a signature that stands made in them counts as said.
pub fn good_chains_of_rows()
    ensures { GoodChainsOfRows }
{}
