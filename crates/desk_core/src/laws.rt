// A law over the replies.
ghost use Rattle.desk_core.specs.Laws.{RepliesCanBeWritten};

/// Whatever came of a call, its reply can be written where its identifier can: its rule is one of the fourteen, and it
/// has certificates under one code alone.
pub fn replies_can_be_written()
    ensures { RepliesCanBeWritten }
{}
