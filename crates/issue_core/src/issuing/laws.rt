// The laws of an issuing desk's stories. Each is the contract of a function that does nothing.
ghost use Rattle.signature_provider.specs.Provider.{Says};
ghost use Rattle.ledger.specs.Laws.{StruckIsStory, OneEntry, StruckDecides, RepeatIsKept, AnswersAreDue};
ghost use Rattle.issue_core.specs.Issuing.Desk.{issuing, is_signed};
ghost use Rattle.issue_core.specs.Issuing.Laws.{ListsOwe, CallsGoOn, KeysAreNeeded};

/// What readable rows with unique keys say of a request, step by step of a call.
pub fn lists_owe()
    ensures { ListsOwe }
{}

/// A story whose ledger are a desk's issued rows goes on by a call of `issue`, and its ledger are then the new rows.
pub fn calls_go_on()
    ensures { CallsGoOn }
{}

/// Where no rule is broken and the key to sign with isn't held, nothing is answered but a fault or want of memory.
pub fn keys_are_needed()
    ensures { KeysAreNeeded }
{}

/// A story without the repeats of requests that have an entry is a story, with the same ledger.
pub fn repeats_issue_nothing()
    ensures { (says : Says) → StruckIsStory issuing (is_signed says) }
{}

/// In the ledger of a story no two certificates are for one request number.
pub fn one_certificate_for_a_number()
    ensures { (says : Says) → OneEntry issuing (is_signed says) }
{}

/// What is issued, to whom, with which rights and until when depends on the requests without their repeats, and on
/// which unanswered ones left an entry, whatever the providers say.
pub fn struck_requests_decide()
    ensures { (says other : Says) → StruckDecides issuing (is_signed says) (is_signed other) }
{}

/// A request that has an entry leaves none, and is answered with that entry's certificate where it is answered at all.
pub fn a_repeat_has_its_certificate()
    ensures { (says : Says) → RepeatIsKept issuing (is_signed says) }
{}

/// Whatever is answered is what is due with the entries that stand: the kept certificate, else the first rule that is
/// broken, else a certificate with the body that is due. So each answer comes exactly where it is due, but for faults
/// and want of memory.
pub fn issued_answers_are_due()
    ensures { (says : Says) → AnswersAreDue issuing (is_signed says) }
{}
