// The chips of the program.
ghost use Rattle.std.specs.Prelude.{◌≡◌, length, IfOk};

use chip_slots::MemoryDisk;
use eac_base::{FailPlan, NoMemory, Octets};
use std::alloc::Global;

// Two slots of a chip's memory.
const BLANK: [u8; 16_384] = [0; 16_384];

// A chip that isn't made yet, of which no call fails.
fn blank_chip(alloc: Global) -> Result<MemoryDisk, NoMemory> {
    let bytes = Octets::from_slice(alloc, &BLANK)?;
    Ok(MemoryDisk::new(alloc, bytes, FailPlan::new(alloc), None))
}

/// So many chips in memory that aren't made yet.
///
/// # Errors
///
/// [`NoMemory`] where memory is wanting.
pub fn blank_chips(alloc: Global, count: u32) -> Result<Vec<MemoryDisk>, NoMemory>
    ensures { IfOk result (λ chips. length chips.items ≡ count) }
{
    let mut chips = Vec::new(alloc);
    for _ in 0..count {
        let chip = blank_chip(alloc)?;
        chips.push(chip)?;
    }
    Ok(chips)
}
