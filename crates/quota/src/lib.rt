// A layer over any suite that limits how many further keys it makes.
#![tactic(auto)]

mod layer;

pub use layer::Quota;
