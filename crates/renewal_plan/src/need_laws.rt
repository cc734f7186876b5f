// What a text and its need have to do with each other. Each law is the contract of a function that does nothing.
ghost use Rattle.renewal_plan.specs.NeedLaws.{FirstIsNamed, TextsAreRead};

/// A text is read as a need exactly where the need is within the limits and the text's lines say it, in order.
pub fn texts_are_read()
    ensures { TextsAreRead }
{}

/// A text that is refused is refused for the first line that breaks a rule, or for its end.
pub fn the_first_line_is_named()
    ensures { FirstIsNamed }
{}
