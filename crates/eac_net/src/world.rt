// What stands between two events beside the keeper's rows and the chips' disks.
ghost use Rattle.std.specs.Prelude.{◌≡◌, [], None};

use crate::counts::ImportCounts;
use crate::packet::PacketList;
use cv_dates::Day;
use eac_base::Acks;
use std::alloc::Global;

/// The day in force, none before the first `day`, the packets ever sent, how many imports were made on each chip, and
/// those that were acknowledged.
#[derive(Debug, Drop)]
pub struct World {
    pub day: Option<Day>,
    pub packets: PacketList,
    pub imports: ImportCounts,
    pub acks: Acks,
}

impl World {
    /// No day, no packet and no import.
    pub fn new(alloc: Global) -> World
        ensures day { result.day ≡ None }
        ensures packets { result.packets ≡ [] }
        ensures imports { result.imports ≡ [] }
        ensures acks { result.acks.acks ≡ [] }
    {
        World {
            day: None,
            packets: PacketList::new(alloc),
            imports: ImportCounts::new(alloc),
            acks: Acks::new(alloc),
        }
    }

    /// The acknowledged imports, in order.
    pub fn into_acks(self) -> Acks
        ensures { result ≡ self.acks }
    {
        let World {
            day: _,
            packets,
            imports,
            acks,
        } = self;
        drop(packets);
        drop(imports);
        acks
    }
}
