// The service sheet: a line for each session of a visit, and a line with the totals.
#![tactic(auto)]

mod limits;
mod record;
mod refusal;
mod sheet;

pub use limits::{LINE, MAX_COUNT, MAX_RECORDS, MAX_SESSION, MAX_SHEET};
pub use record::{End, SheetRecord};
pub use refusal::Refusal;
pub use sheet::write;
