// The bench suite, for trials: XOR, and a sum at the end of a payload.
#![tactic(auto)]

mod kind;
mod sums;

pub use kind::{Bench, BenchKind};
