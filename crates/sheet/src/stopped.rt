// Why a run stopped without a sheet.
use std::alloc::AllocError;
use std::io;
use thiserror::Error;

// Why a line cannot be read.
#[derive(Debug, Drop, Error)]
pub enum Unreadable {
    #[error("neither a session record nor the room")]
    NoSuchLine,
    #[error("not text")]
    NotText,
    #[error("not a number in decimal digits")]
    Number,
    #[error("neither sse nor sch")]
    Service,
    #[error("none of T, E and R")]
    End,
    #[error("the room after the first session record")]
    RoomLate,
    #[error("no memory for it")]
    NoMemory,
}

impl From<AllocError> for Unreadable {
    fn from(_error: AllocError) -> Self {
        Self::NoMemory
    }
}

#[derive(Debug, Drop, Error)]
pub enum Stopped {
    #[error("line {number}: {reason}")]
    Line { number: u64, reason: Unreadable },
    #[error(transparent)]
    Io(#[from] io::Error),
}
