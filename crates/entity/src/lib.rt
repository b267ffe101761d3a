// The NFC-SEC entity over any suite: one machine, proved once for all of them.
#![tactic(auto)]

mod ancillary;
mod bytes;
mod call;
mod entity;
mod held;
mod slip;

pub use ancillary::Ancillary;
pub use call::Call;
pub use entity::Entity;
pub use slip::Slip;
