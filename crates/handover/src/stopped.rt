// Why the hand-over stopped before its end.
use activation::Refusal;
use std::alloc::AllocError;
use std::io;
use thiserror::Error;

#[derive(Debug, Drop, Error)]
pub enum Stopped {
    #[error("the activation is refused: {0}")]
    Refused(#[from] Refusal),
    #[error("the sheet is refused: {0}")]
    Sheet(#[from] service_sheet::Refusal),
    #[error(transparent)]
    Io(#[from] io::Error),
}

impl From<AllocError> for Stopped {
    fn from(error: AllocError) -> Self {
        Self::Io(error.into())
    }
}
