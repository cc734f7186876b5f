// What templates, their reader and their writer have to do with each other. Each law is the contract of a function that
// does nothing.
ghost use Rattle.chat_rights.specs.Laws.{ReadAfterWrite, WriteAfterRead, SameBitsSameRights};

/// What is read of a written template is that template.
pub fn read_after_write()
    ensures { ReadAfterWrite }
{}

/// What is written of a template that was read are the bytes it was read from.
pub fn write_after_read()
    ensures { WriteAfterRead }
{}

/// Rights are their bits: two that grant the same are one.
pub fn rights_are_their_bits()
    ensures { SameBitsSameRights }
{}
