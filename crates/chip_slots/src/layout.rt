// How a memory is laid out: slots of one size, each with a gate of one byte before its record.
ghost use Rattle.std.specs.Prelude.{◌≡◌};
ghost use Rattle.chip_slots.specs.Image as words;

/// The bytes of a slot.
pub const SLOT: u64 = 8192;

/// An open gate. Any other byte is a closed one.
pub const OPEN: u8 = 0xa5;

/// What closes a gate.
pub const CLOSED: u8 = 0x00;

/// The form of a record.
pub const FORM: u8 = 1;

/// Whether a disk of this length can be a memory: it has 2 to 16 slots and nothing else.
pub fn is_memory(size: u64) -> bool
    ensures { result ≡ words.is_memory size }
{
    size % SLOT == 0 && 2 <= size / SLOT && size / SLOT <= 16
}
