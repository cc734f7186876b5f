// What the calls keep of rows' laws. Each is the contract of a function that does nothing.
ghost use Rattle.holder_core.specs.LawfulCalls.{TakesKeep, TakesCaKeep, TrustsKeep, ReceivesKeep, RequestsKeep, RequestsAreExact};

/// A certificate that is taken leaves each desk's own rows numbered and each authority's founded, where they were.
pub fn taking_keeps_the_laws()
    ensures { TakesKeep }
{}

/// So does a certificate of an authority.
pub fn taking_an_authority_keeps_the_laws()
    ensures { TakesCaKeep }
{}

/// So does a founding certificate that is carried by hand.
pub fn trusting_keeps_the_laws()
    ensures { TrustsKeep }
{}

/// So do certificates that come in.
pub fn receiving_keeps_the_laws()
    ensures { ReceivesKeep }
{}

/// A request leaves the party's own rows numbered, where they were, and every other desk's own rows as they are.
pub fn requesting_keeps_the_numbers()
    ensures { RequestsKeep }
{}

/// Where the party's own rows are numbered, a request is answered by them exactly: no row stands under the next
/// number, and `Exhausted` comes where no number is left and nowhere else.
pub fn requests_are_exact()
    ensures { RequestsAreExact }
{}
