// Laws of the definitions, for the proofs above. These functions do nothing: what they ensure is the law.

ghost use Rattle.cv_dates.specs.Calendar.{EachDayIsRead, ReadIsTheText, DatesAreRead, EachTextIsRead, TextReadIsTheText, TextsAreRead, DatesSortAsDays, TextsSortAsDays};

/// Each day has one date of six digits, which is read as that day, and no other digits are.
pub fn one_date_each()
    ensures read { EachDayIsRead }
    ensures text { ReadIsTheText }
    ensures exact { DatesAreRead }
{}

/// Each day has one text of six ASCII digits, which is read as that day, and no other text is.
pub fn one_text_each()
    ensures read { EachTextIsRead }
    ensures text { TextReadIsTheText }
    ensures exact { TextsAreRead }
{}

/// Dates and texts sort as their days do.
pub fn dates_sort_as_days()
    ensures digits { DatesSortAsDays }
    ensures texts { TextsSortAsDays }
{}
