// The frames of NFC-SEC (ISO/IEC 13157-1, clause 11): reader, writer, and the detail of an ERROR.
#![tactic(auto)]

mod detail_reader;
mod faults;
mod reader;
mod types;
mod writer;

pub use buffers::MAX_FRAME;
pub use detail_reader::Detail;
pub use faults::{CodecFault, FaultCode, ReadError, Refusal};
pub use reader::read;
pub use types::{Body, Message, MessageKind, Service};
pub use writer::write;
