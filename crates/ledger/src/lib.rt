// A layer over any suite that makes at most 32 further keys, and keeps a table of them.
#![tactic(auto)]

mod layer;
mod row;
mod table;

pub use layer::Ledger;
pub use row::{Row, RowMark};
