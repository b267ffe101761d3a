// Why a trial stopped.
use std::io;
use suite::Denial;
use thiserror::Error;

#[derive(Debug, Drop, Error)]
pub enum Stopped {
    #[error("denied: {0}")]
    Denied(#[from] Denial),
    #[error(transparent)]
    Io(#[from] io::Error),
}

// A denial is printed as any result of a suite is. Only an error of output or memory ends the program.
pub(super) fn report<T: Drop>(
    rt: &HostRuntime,
    outcome: Result<T, Stopped>,
) -> Result<(), Stopped> {
    match outcome {
        Ok(_value) => Ok(()),
        Err(denied @ Stopped::Denied(_)) => Ok(println!(rt; "  {denied}")?),
        Err(stopped) => Err(stopped),
    }
}
