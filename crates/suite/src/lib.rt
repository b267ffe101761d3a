// A cipher suite by what it means: the interface of every suite, and of every layer over one.
#![tactic(auto)]

mod layer;
mod limits;
mod suite_trait;
mod types;

pub use layer::Layer;
pub use limits::{MAX_DATA, MAX_NUMBER};
pub use suite_trait::{HasMeaning, Suite};
pub use types::{Denial, KeyKind, KindNumbers, Role};
