// A suite of any kind that keeps its keys in a store. Its calls are written and proved once for all kinds.
#![tactic(auto)]

mod bytes;
mod kind;
mod payload;
mod suite_of;

pub use kind::Kind;
pub use suite_of::SuiteOf;
