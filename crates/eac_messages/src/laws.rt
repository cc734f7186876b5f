// What messages and replies, their readers and their writers have to do with each other. Each law is the contract of a
// function that does nothing.
ghost use Rattle.eac_messages.specs.Laws.{MessageAfterWrite, ReplyAfterWrite, OneMessage, OneReply};

/// What is read of a written message or reply is that value.
pub fn read_after_write()
    ensures message { MessageAfterWrite }
    ensures reply { ReplyAfterWrite }
{}

/// A body is of one message, and of one reply.
pub fn one_value()
    ensures message { OneMessage }
    ensures reply { OneReply }
{}
