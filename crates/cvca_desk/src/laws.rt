// What the calls keep of an authority's own rows. Each is the contract of a function that does nothing.
ghost use Rattle.cvca_desk.specs.Lawful.{FoundingKeeps, LinkKeeps};

/// A founding leaves the authority's own rows numbered and each with a certificate that a trust point can be made of,
/// where they were, and every other desk's own rows as they are.
pub fn founding_keeps_the_laws()
    ensures { FoundingKeeps }
{}

/// So does a link.
pub fn linking_keeps_the_laws()
    ensures { LinkKeeps }
{}
