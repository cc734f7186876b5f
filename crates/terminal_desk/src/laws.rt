// Laws of chains. Each is the contract of a function that does nothing.
ghost use Rattle.terminal_desk.specs.Laws.{OneIsDue};

/// By the same references and rows one chain is due, or none is.
pub fn one_is_due()
    ensures { OneIsDue }
{}
