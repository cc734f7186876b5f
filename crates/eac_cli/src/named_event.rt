// The events of a script as its lines name them.
use cv_dates::Day;
use eac_base::Octets;
use holder_reference::{Holder, Reference};

/// What one line of a script asks for, its parties by their holders. A chip is none where its number isn't below that of the
/// chips.
#[derive(Debug, Drop)]
pub enum NamedEvent {
    /// `day DATE`: it is this day from now on.
    Day {
        day: Day,
    },
    /// `ask REFERENCE HEX`: the plain register is asked for the reference with these bytes.
    Ask {
        reference: Reference,
        bytes: Octets,
    },
    /// `found AUTH`: an authority makes its first certificate.
    Found {
        authority: Holder,
    },
    /// `link AUTH`: an authority makes a link certificate.
    Link {
        authority: Holder,
    },
    /// `trust PARTY AUTH`: a party stores an authority's founding certificate.
    Trust {
        party: Holder,
        authority: Holder,
    },
    /// `apply HOLDER AUTH ROOT`: a holder makes a request and sends it to an authority, below this root.
    Apply {
        holder: Holder,
        authority: Holder,
        root: Holder,
    },
    /// `fetch PARTY DESK`: a party asks a desk for its list.
    Fetch {
        party: Holder,
        desk: Holder,
    },
    /// `push DESK PARTY`: a desk sends its list to a party.
    Push {
        desk: Holder,
        party: Holder,
    },
    /// `send FROM TO HEX`: a party sends these bytes as a call.
    Send {
        from: Holder,
        to: Holder,
        bytes: Octets,
    },
    /// `deliver N`: the packet of this number comes, 1 to 1,000,000.
    Deliver {
        packet: u64,
    },
    /// `make CHIP AUTH`: a chip is made with an authority's newest certificate.
    Make {
        chip: Option<u32>,
        authority: Holder,
    },
    /// `present CHIP TERMINAL`: a terminal's chain is shown to a chip.
    Present {
        chip: Option<u32>,
        terminal: Holder,
    },
    /// `import CHIP HEX`: a chip is given a certificate.
    Import {
        chip: Option<u32>,
        bytes: Octets,
    },
    /// `look CHIP`: a chip is told.
    Look {
        chip: Option<u32>,
    },
}
