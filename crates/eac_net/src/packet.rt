// Packets between parties.
ghost use Rattle.std.specs.Prelude.{◌≡◌, [], ◌∷◌, ◌++◌, List, length, slice_get, OnOk, OnErr};
ghost use Rattle.std.specs.Option.{option_copied};
ghost use Rattle.eac_net.specs.declared.packet.Packet.{Packet as PacketValue};

use eac_base::{NoMemory, Octets};
use std::alloc::Global;
use std::marker::Model;

/// A call, or the reply to one, on its way.
#[derive(Debug, Drop)]
pub struct Packet {
    pub from: u32,
    pub to: u32,
    pub reply: bool,
    pub body: Octets,
}

/// Packets in the order of sending. A packet's number is its place, from 1.
#[derive(Debug, Drop)]
pub struct PacketList {
    packets: Vec<Packet>,
}

impl Model for PacketList {
    ghost use Rattle.std.specs.Prelude.{List};
    ghost use Rattle.eac_net.specs.declared.packet.Packet.{Packet};

    ghost Value = { List Packet };

    ghost view = { λ l. l.packets.items };
}

impl PacketList {
    /// No packets.
    pub fn new(alloc: Global) -> PacketList
        ensures { result ≡ [] }
    {
        PacketList {
            packets: Vec::new(alloc),
        }
    }

    /// Appends the packet, or nothing where memory is wanting.
    pub fn push(&mut self, packet: Packet) -> Result<(), NoMemory>
        ensures pushed { OnOk result (self.new ≡ self.old ++ packet ∷ []) }
        ensures kept { OnErr result (self.new ≡ self.old) }
    {
        self.packets.push(packet)?;
        Ok(())
    }

    /// Takes the last packet back.
    pub(crate) fn take_back(&mut self)
        ensures { (packets : List PacketValue) (last : PacketValue) → self.old ≡ packets ++ last ∷ []
            → self.new ≡ packets }
    {
        self.packets.pop();
    }

    /// The number of packets.
    pub fn len(&self) -> usize
        ensures { result ≡ length self.now }
    {
        self.packets.len()
    }

    /// The packet at a place from 0, and none from the length on.
    pub fn get(&self, at: usize) -> Option<&Packet>
        ensures { option_copied result ≡ slice_get self.now at }
    {
        self.packets.get(at)
    }
}
