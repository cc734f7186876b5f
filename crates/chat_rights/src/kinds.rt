// What the code has of the table of types.
ghost use Rattle.std.specs.Prelude.{◌≡◌};
ghost use Rattle.chat_rights.specs.Kinds.{identifier_of};

use crate::Kind;

impl Kind {
    /// The content of the object 06 in the type's templates.
    pub(crate) fn identifier(&self) -> [u8; 9]
        ensures { result ≡ identifier_of self.now }
    {
        match self {
            Kind::Inspection => [0x04, 0x00, 0x7f, 0x00, 0x07, 0x03, 0x01, 0x02, 0x01],
        }
    }
}
