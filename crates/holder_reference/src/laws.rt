// Laws that hold of each legal text. Their functions do nothing: they are there for what they ensure.
ghost use Rattle.holder_reference.specs.Laws.{EachHasItsParts, EachIsJoined, ReferencesAreRead, HoldersAreRead, NumbersAreSaid, DecimalsAreNumbers};

/// A reference's holder and sequence, joined, are the reference; and what is joined has the parts it was joined of.
pub fn parts_and_whole()
    ensures parts { EachHasItsParts }
    ensures whole { EachIsJoined }
{}

/// What a reference or a holder gives as its bytes is read as itself.
pub fn read_again()
    ensures references { ReferencesAreRead }
    ensures holders { HoldersAreRead }
{}

/// The numbers below 100,000 and the decimal sequences are the same, one to one.
pub fn one_number_each()
    ensures said { NumbersAreSaid }
    ensures decimals { DecimalsAreNumbers }
{}
