// Where a suite keeps its keys: two places of 16 bytes, all zeros where no key is live.
#![tactic(auto)]

mod place;
mod store;

pub use store::KeyStore;
