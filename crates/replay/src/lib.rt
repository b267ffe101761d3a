// The calls of two entities made again from their logs, with what every run of calls promises; and the sessions of a log, for the service sheet.
#![tactic(auto)]

mod again;
mod bill;
mod entry;
mod logged;
mod make;
mod note;
mod play;
mod session;
mod sheet;

pub use again::{Transcripts, replay};
pub use bill::handed_count;
pub use entry::{Direction, Entry, SessionRecord, WrittenBytes};
pub use logged::LoggedCall;
pub use sheet::sheet_records;
