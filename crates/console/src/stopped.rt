// Why a run stopped before the end of its script.
use hex_text::HexError;
use std::alloc::AllocError;
use std::io;
use thiserror::Error;

// Why a line cannot be read.
#[derive(Debug, Drop, Error)]
pub enum Unreadable {
    #[error("neither a set-up line nor a call")]
    NoSuchLine,
    #[error("not text")]
    NotText,
    #[error("{0}")]
    Hex(#[from] HexError),
    #[error("not {0} bytes")]
    ByteCount(usize),
    #[error("not a number from 0 to {0}")]
    Number(u32),
    #[error("the suite comes first, and once")]
    SuiteFirst,
    #[error("that layer stands already")]
    LayerStands,
    #[error("a set-up line after the first call")]
    SetUpLate,
    #[error("too long for the memory")]
    NoMemory,
}

impl From<AllocError> for Unreadable {
    fn from(_error: AllocError) -> Self {
        Self::NoMemory
    }
}

#[derive(Debug, Drop, Error)]
pub enum Stopped {
    #[error("line {number}: {reason}")]
    Line { number: u64, reason: Unreadable },
    #[error(transparent)]
    Io(#[from] io::Error),
}

impl From<AllocError> for Stopped {
    fn from(error: AllocError) -> Self {
        Self::Io(error.into())
    }
}
