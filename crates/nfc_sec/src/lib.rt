// What a device links, by one name. Nothing is written here: each item is one of a crate below, with its contract.
#![tactic(auto)]

// The activation, the entity, and what its calls answer. Refusal 11 is the activation's, 1 to 10 are the entity's.
pub use activation::{Agreed, Offered, Refusal as ActivationRefusal, Refused};
pub use entity::{Ancillary, Call, Entity, Slip};
pub use frame::{MAX_FRAME, Service};
pub use protocol::{
    Cause, Confirmation, Destroyed, Fault, MachineFault, Outcome, Refusal, State, SuiteFault,
};
pub use suite::MAX_DATA;

/// Frames by themselves, for whoever shows what passes over a link: reader, writer, the detail of an ERROR.
pub mod frames {
    pub use frame::{
        Body, CodecFault, Detail, FaultCode, Message, MessageKind, ReadError, Refusal, read, write,
    };
}

/// Cipher suites: the interface, the form that both suites have, and the two. `Bench` protects nothing.
pub mod suites {
    pub use bench_suite::{Bench, BenchKind};
    pub use keyed_suite::{KeyedKind, KeyedSuite};
    pub use suite::{Denial, HasMeaning, KeyKind, KindNumbers, MAX_NUMBER, Role, Suite};
    pub use suite_of::{Kind, SuiteOf};
}

/// Layers, which stand over any suite and are suites themselves.
pub mod layers {
    pub use ledger::{Ledger, Row, RowMark};
    pub use quota::Quota;
    pub use suite::Layer;
}

/// Logs: their calls made again, the records that were sent and handed, and the sessions for the service sheet. This allocates.
pub mod log {
    pub use replay::{
        Direction, Entry, LoggedCall, SessionRecord, Transcripts, WrittenBytes, handed_count,
        replay, sheet_records,
    };
}

/// The service sheet: a line for each session of a visit, and a line with the totals. Its refusals are 15 to 17.
pub mod sheet {
    pub use service_sheet::{
        End, LINE, MAX_COUNT, MAX_RECORDS, MAX_SESSION, MAX_SHEET, Refusal, SheetRecord, write,
    };
}
