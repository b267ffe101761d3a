ghost use Rattle.std.specs.Prelude.{◌≡◌, Some};
ghost use Rattle.protocol.specs.declared.faults.Cause.TheVariants.{Codec as CodecCause, Suite as SuiteCause};
ghost use Rattle.protocol.specs.Numbers.{suite_code, cause_code};
ghost use Rattle.protocol.specs.Wraps.{result_in_state, result_at_message};
ghost use Rattle.protocol.specs.Words.{suite_words, cause_words};

use super::states::State;
use frame::{CodecFault, FaultCode};
use std::error::Error;
use std::fmt;

/// What is wrong with what a message has for the suite. The place of each is 1, right after SEP.
#[derive(Clone, Copy, Debug, PartialEq, Eq)]
pub enum SuiteFault {
    /// S1, of an ACT_REQ: the PID is not the suite's.
    OtherPid,
    /// S2, of an ACT_REQ or ACT_RES: the peer's offer is not fit.
    BadOffer,
    /// S3, where a key would be made: the suite makes no further key.
    NoKey,
    /// S4, of a VFY_REQ or VFY_RES: the peer's check value is wrong (clause 9.2).
    WrongCheck,
    /// S5, of an ENC: the record is not good, is of the entity's own role, or its data has no byte or more than 200 (clause 9.3).
    BadRecord,
}

impl SuiteFault {
    /// Returns letter, digit and place of the fault, S1 to S5.
    pub fn code(self) -> FaultCode
        ensures { result ≡ suite_code self }
    {
        let digit = match self {
            SuiteFault::OtherPid => b'1',
            SuiteFault::BadOffer => b'2',
            SuiteFault::NoKey => b'3',
            SuiteFault::WrongCheck => b'4',
            SuiteFault::BadRecord => b'5',
        };
        FaultCode {
            letter: b'S',
            digit,
            place: 1,
        }
    }
}

impl fmt::Display for SuiteFault {
    ghost output = { λ fault. Some (suite_words fault) };

    fn fmt<W: fmt::Write>(&self, f: &mut fmt::Formatter<W>) -> fmt::Result {
        f.write_str(match self {
            SuiteFault::OtherPid => "the PID is not the suite's",
            SuiteFault::BadOffer => "the offer is not fit",
            SuiteFault::NoKey => "the suite makes no further key",
            SuiteFault::WrongCheck => "the check value is wrong",
            SuiteFault::BadRecord => "the record is not good",
        })
    }
}

impl Error for SuiteFault {}

/// What is wrong with a frame, by layer (clause 12.1).
#[derive(Clone, Copy, Debug, PartialEq, Eq)]
pub enum Cause {
    /// C1 to C4: the form of the frame is wrong.
    Codec(CodecFault),
    /// M1: the message is not allowed in this state.
    NotAllowed,
    /// M2: the message is of another service than the session.
    OtherService,
    /// S1 to S5: what the message has for the suite is wrong.
    Suite(SuiteFault),
    /// Q1: the number of a record is not the next, or is above the last (clause 12.3).
    WrongNumber,
}

impl Cause {
    /// Returns letter, digit and place of the cause.
    pub fn code(self) -> FaultCode
        ensures { result ≡ cause_code self }
    {
        match self {
            Cause::Codec(fault) => fault.code(),
            Cause::NotAllowed => FaultCode {
                letter: b'M',
                digit: b'1',
                place: 0,
            },
            Cause::OtherService => FaultCode {
                letter: b'M',
                digit: b'2',
                place: 0,
            },
            Cause::Suite(fault) => fault.code(),
            Cause::WrongNumber => FaultCode {
                letter: b'Q',
                digit: b'1',
                place: 1,
            },
        }
    }
}

impl fmt::Display for Cause {
    ghost output = { λ cause. Some (cause_words cause) };

    fn fmt<W: fmt::Write>(&self, f: &mut fmt::Formatter<W>) -> fmt::Result {
        match self {
            Cause::Codec(fault) => fault.fmt(f),
            Cause::NotAllowed => f.write_str("the message is not allowed in this state"),
            Cause::OtherService => f.write_str("the session is of the other service"),
            Cause::Suite(fault) => fault.fmt(f),
            Cause::WrongNumber => f.write_str("the number is not the next"),
        }
    }
}

impl From<CodecFault> for Cause {
    ghost from_gives = { λ x r. r ≡ CodecCause x };

    fn from(fault: CodecFault) -> Self {
        Self::Codec(fault)
    }
}

impl From<SuiteFault> for Cause {
    ghost from_gives = { λ x r. r ≡ SuiteCause x };

    fn from(fault: SuiteFault) -> Self {
        Self::Suite(fault)
    }
}

/// The machine's fault: a cause, and the state that it was met in.
#[derive(Clone, Copy, Debug, PartialEq, Eq)]
pub struct MachineFault {
    /// What is wrong with the frame.
    pub cause: Cause,
    /// The state before the frame was taken.
    pub state: State,
}

/// The entity's fault, as an outcome reports it: the machine's, and the message at which it was met.
#[derive(Clone, Copy, Debug, PartialEq, Eq)]
pub struct Fault {
    /// The cause, and the state that it was met in.
    pub machine: MachineFault,
    /// The low four bits of the frame's first byte, even where these are the code of no message.
    pub message: u8,
}

impl Fault {
    /// Returns letter, digit and place of its cause.
    pub fn code(self) -> FaultCode
        ensures { result ≡ cause_code self.machine.cause }
    {
        self.machine.cause.code()
    }
}

// The words of the cause alone.
impl fmt::Display for Fault {
    ghost output = { λ fault. Some (cause_words fault.machine.cause) };

    fn fmt<W: fmt::Write>(&self, f: &mut fmt::Formatter<W>) -> fmt::Result {
        self.machine.cause.fmt(f)
    }
}

impl Error for Fault {}

/// The fault of a lower layer on its way up, with the state that it was met in. `?` makes a `MachineFault` of it.
#[derive(Drop)]
pub struct FaultInState<E> {
    /// The fault: of the codec, of the suite, or a cause already.
    pub fault: E,
    /// The state that it was met in.
    pub state: State,
}

impl<E> From<FaultInState<E>> for MachineFault
where
    Cause: From<E>,
{
    ghost from_gives = { λ x r. ⟦<Cause as From<E>>⟧.from_gives x.fault r.cause × (r.state ≡ x.state) };

    fn from(error: FaultInState<E>) -> Self {
        let FaultInState { fault, state } = error;
        Self {
            cause: fault.into(),
            state,
        }
    }
}

/// The machine's fault on its way up, with the message at which it was met. `?` makes a `Fault` of it.
#[derive(Drop)]
pub struct FaultAtMessage<E> {
    /// The fault, as the machine met it.
    pub fault: E,
    /// The low four bits of the frame's first byte.
    pub message: u8,
}

impl From<FaultAtMessage<MachineFault>> for Fault {
    ghost from_gives = { λ x r. r ≡ record { machine = x.fault; message = x.message } };

    fn from(error: FaultAtMessage<MachineFault>) -> Self {
        Self {
            machine: error.fault,
            message: error.message,
        }
    }
}

/// Returns a result with the state added to its error.
pub fn in_state<T, E>(state: State, outcome: Result<T, E>) -> Result<T, FaultInState<E>>
    ensures { result ≡ result_in_state state outcome }
{
    outcome.map_err(|fault| FaultInState { fault, state })
}

/// Returns a result with the message added to its error: the low four bits of the frame's first byte.
pub fn at_message<T, E>(message: u8, outcome: Result<T, E>) -> Result<T, FaultAtMessage<E>>
    ensures { result ≡ result_at_message message outcome }
{
    outcome.map_err(|fault| FaultAtMessage { fault, message })
}
