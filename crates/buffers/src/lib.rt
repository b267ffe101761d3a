// Writing to the front of a caller's buffer: the limits, the function, and the definitions and laws that other crates cite.
#![tactic(auto)]

mod front;
mod limits;

pub use front::write_front;
pub use limits::{MAX_FRAME, MAX_PAYLOAD};
