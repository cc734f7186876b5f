// Events of chips.
mod handing;
mod importing;
mod looking;
mod making;
mod presenting;

pub use importing::import;
pub use looking::look;
pub use making::make;
pub use presenting::present;
