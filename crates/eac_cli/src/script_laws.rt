// What holds of every script and of every fault.
ghost use Rattle.eac_cli.specs.ScriptLaws.{ScriptsAreFine, FaultIsOne, EventsAreOne, SetupIsOne, SetupsAreScripts};
ghost use Rattle.eac_cli.specs.ScriptLaws.{SetupsComeFirst, ScriptsAreInOrder, ScriptsFit, ScriptsAreShort};

/// Bytes that are a script have no fault.
pub fn scripts_have_no_fault()
    ensures { ScriptsAreFine }
{}

/// Bytes have one fault at most.
pub fn a_fault_is_one()
    ensures { FaultIsOne }
{}

/// Bytes are a script of one list of events at most.
pub fn events_are_one()
    ensures { EventsAreOne }
{}

/// Bytes are a script of one setup at most.
pub fn a_setup_is_one()
    ensures { SetupIsOne }
{}

/// A text is a setup exactly where it is a script without events, of the same setup.
pub fn setups_are_scripts()
    ensures { SetupsAreScripts }
{}

/// In every script all setup lines stand before all event lines.
pub fn setups_come_first()
    ensures { SetupsComeFirst }
{}

/// In every script a day stands before the first other event, and no day is before the day in force.
pub fn scripts_are_in_order()
    ensures { ScriptsAreInOrder }
{}

/// In every script the parties of an event are parties of the setup and have their parts, and its chip is one of the chips.
pub fn scripts_fit()
    ensures { ScriptsFit }
{}

/// Every script has 20,000 events at most.
pub fn scripts_are_short()
    ensures { ScriptsAreShort }
{}
