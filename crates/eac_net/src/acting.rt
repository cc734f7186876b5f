// Acts of parties.
mod applying;
mod founding;
mod linking;
mod trusting;

pub use applying::{Asking, apply};
pub use founding::found;
pub use linking::link;
pub use trusting::trust;
