// What objects, their reader and their writer have to do with each other. Each law is the contract of a function
// that does nothing.
ghost use Rattle.tlv_core.specs.Laws.{OneSpelling, OneObject, NoProperPrefix, ReadAfterWrite, WriteAfterRead};

/// A tag and a content have one spelling, and bytes are an object of one tag and content.
pub fn one_spelling()
    ensures spelling { OneSpelling }
    ensures object { OneObject }
{}

/// No object is a proper prefix of another.
pub fn no_proper_prefix()
    ensures { NoProperPrefix }
{}

/// What is read of a written object is that object, whatever follows it.
pub fn read_after_write()
    ensures { ReadAfterWrite }
{}

/// What is written of an object that was read are the bytes it was read from.
pub fn write_after_read()
    ensures { WriteAfterRead }
{}
