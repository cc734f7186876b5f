// What a text and its setup have to do with each other. Each law is the contract of a function that does nothing.
ghost use Rattle.policy_limits.specs.SetupText.{FirstIsNamed, LinesAreSaid};

/// A text that is refused is refused for the first line that breaks a rule.
pub fn the_first_line_is_named()
    ensures { FirstIsNamed }
{}

/// Each line of a text that is read says something. The parties of its setup are what the party lines say, and the
/// registrations what the registration lines say, in order.
pub fn the_lines_are_said()
    ensures { LinesAreSaid }
{}
