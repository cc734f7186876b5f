// The laws of the register's stories. Each is the contract of a function that does nothing.
ghost use Rattle.ledger.specs.Laws.{GoesOn, StruckIsStory, OneEntry, StruckDecides, RepeatIsKept, AnswersAreDue};
ghost use Rattle.issue_core.specs.Registering.Desk.{register, unsigned, RowsAreLedger};

/// A story goes on by each delivery that the register may make after it.
pub fn a_story_goes_on()
    ensures { GoesOn register unsigned }
{}

/// A story without the repeats of requests that have an entry is a story, with the same ledger.
pub fn repeats_change_nothing()
    ensures { StruckIsStory register unsigned }
{}

/// In the ledger of a story no two entries have one reference.
pub fn one_entry_for_a_reference()
    ensures { OneEntry register unsigned }
{}

/// What is issued depends on the requests without their repeats, and on which unanswered ones left an entry.
pub fn repeats_decide_nothing()
    ensures { StruckDecides register unsigned unsigned }
{}

/// A request that has an entry leaves none, and is answered with that entry where it is answered at all.
pub fn a_repeat_is_kept()
    ensures { RepeatIsKept register unsigned }
{}

/// Whatever is answered is what is due with the entries that stand: so each answer comes exactly where it is due, but
/// for faults and want of memory.
pub fn answers_are_due()
    ensures { AnswersAreDue register unsigned }
{}

/// The rows that deliveries add are those of the entries that they leave, in the same order.
pub fn rows_are_the_ledger()
    ensures { RowsAreLedger }
{}
