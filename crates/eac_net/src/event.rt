// The events of a run. Parties are given by their numbers in the setup, chips by theirs among the disks.
use cv_dates::Day;
use eac_base::Octets;
use holder_reference::Reference;

/// What is to happen.
#[derive(Debug, Drop)]
pub enum Event {
    /// It is this day from now on.
    Day {
        day: Day,
    },
    /// The plain register is asked for the reference with these bytes, 1 to 4,096 of them.
    Ask {
        reference: Reference,
        bytes: Octets,
    },
    /// An authority makes its first certificate.
    Found {
        authority: u32,
    },
    /// An authority makes a link certificate.
    Link {
        authority: u32,
    },
    /// A party stores an authority's founding certificate, carried by hand.
    Trust {
        party: u32,
        authority: u32,
    },
    /// A holder makes a request and sends it to an authority, below this root.
    Apply {
        holder: u32,
        authority: u32,
        root: u32,
    },
    /// A party asks a desk for its list.
    Fetch {
        party: u32,
        desk: u32,
    },
    /// A party sends these bytes as a call, 1 to 4,096 of them.
    Send {
        from: u32,
        to: u32,
        bytes: Octets,
    },
    /// A desk sends its list to a party.
    Push {
        desk: u32,
        party: u32,
    },
    /// The packet of this number, from 1, comes to its party.
    Deliver {
        packet: u64,
    },
    /// A chip is made with an authority's newest certificate, on the day in force.
    Make {
        chip: u32,
        authority: u32,
    },
    /// A terminal's chain is shown to a chip.
    Present {
        chip: u32,
        terminal: u32,
    },
    /// A chip is given these bytes as a certificate, 1 to 4,096 of them.
    Import {
        chip: u32,
        bytes: Octets,
    },
    /// A chip is told.
    Look {
        chip: u32,
    },
}
