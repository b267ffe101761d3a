// The keyed suite: AES-128 and AES-CMAC protect the records.
#![tactic(auto)]

mod kind;
mod stream;

pub use kind::{KeyedKind, KeyedSuite};
