ghost use Rattle.std.specs.Prelude.{◌≡◌, Some};
ghost use Rattle.frame.specs.Numbers.{refusal_number, fault_code};
ghost use Rattle.frame.specs.Words.{refusal_words, code_words, fault_words, error_words};
ghost use Rattle.frame.specs.declared.faults.ReadError.TheVariants.{Refused, Fault};

use std::error::Error;
use std::fmt;

/// Why the reader or the writer refuses a frame.
#[derive(Clone, Copy, Debug, PartialEq, Eq)]
pub enum Refusal {
    /// 1: the buffer to be written has fewer than 255 bytes, however short the frame would be.
    ReplyBuffer = 1,
    /// 3: the frame has no byte or more than 255; when writing, also a TMN with payload.
    FrameLength = 3,
}

impl Refusal {
    /// Its number, 1 or 3. A method, since `u8::from` would not say which number it is.
    pub fn number(self) -> u8
        ensures { result ≡ refusal_number self }
    {
        self as u8
    }
}

// `Display` by hand, here and below: what `thiserror` derives has no contract.
impl fmt::Display for Refusal {
    ghost output = { λ refusal. Some (refusal_words refusal) };

    fn fmt<W: fmt::Write>(&self, f: &mut fmt::Formatter<W>) -> fmt::Result {
        f.write_str(match self {
            Refusal::ReplyBuffer => "the buffer has fewer than 255 bytes",
            Refusal::FrameLength => "a frame has 1 to 255 bytes, and a TMN nothing after SEP",
        })
    }
}

impl Error for Refusal {}

/// What is wrong with the form of a frame (clause 11). They are tried in this order.
#[derive(Clone, Copy, Debug, PartialEq, Eq)]
pub enum CodecFault {
    /// C1, at place 0: an RFU bit (8 or 7 of SEP) is ONE.
    RfuBit,
    /// C2, at place 0: the service (bits 6 and 5 of SEP) is neither 00 nor 01.
    NoService,
    /// C3, at place 0: the message code (bits 4 to 1 of SEP) is reserved.
    NoMessage,
    /// C4, at place 1: an ACT_REQ without PID, or a TMN with payload.
    WrongFields,
}

/// A fault as it is reported: layer letter, cause digit and the place in the frame.
/// Letter and digit are bytes in ASCII, since the detail of an ERROR is made of them.
#[derive(Clone, Copy, Debug, PartialEq, Eq)]
pub struct FaultCode {
    /// The letter of the layer, in ASCII: C codec, M machine, S suite, Q sequence of numbers.
    pub letter: u8,
    /// The digit of the cause, in ASCII: 1 to 5.
    pub digit: u8,
    /// The place in the frame of the byte that the fault speaks of, from 0.
    pub place: usize,
}

// Letter and digit, as in C1; the place is not printed.
impl fmt::Display for FaultCode {
    ghost output = { λ code. Some (code_words code) };

    fn fmt<W: fmt::Write>(&self, f: &mut fmt::Formatter<W>) -> fmt::Result {
        let letter = self.letter as char;
        let digit = self.digit as char;
        write!(f, "{letter}{digit}")
    }
}

impl CodecFault {
    /// Returns letter, digit and place of the fault, C1 to C4.
    pub fn code(self) -> FaultCode
        ensures { result ≡ fault_code self }
    {
        let (digit, place) = match self {
            CodecFault::RfuBit => (b'1', 0),
            CodecFault::NoService => (b'2', 0),
            CodecFault::NoMessage => (b'3', 0),
            CodecFault::WrongFields => (b'4', 1),
        };
        FaultCode {
            letter: b'C',
            digit,
            place,
        }
    }
}

impl fmt::Display for CodecFault {
    ghost output = { λ fault. Some (fault_words fault) };

    fn fmt<W: fmt::Write>(&self, f: &mut fmt::Formatter<W>) -> fmt::Result {
        f.write_str(match self {
            CodecFault::RfuBit => "a bit reserved for future use (8 or 7 of SEP) is ONE",
            CodecFault::NoService =>
                "the service bits (6 and 5 of SEP) are neither 00 SSE nor 01 SCH",
            CodecFault::NoMessage => "the message bits (4 to 1 of SEP) are none of the standard's",
            CodecFault::WrongFields => "an ACT_REQ needs its PID, a TMN has nothing after SEP",
        })
    }
}

impl Error for CodecFault {}

/// Why bytes are not read as a message.
#[derive(Clone, Copy, Debug, PartialEq, Eq)]
pub enum ReadError {
    /// Refused, 3: there is no byte, or there are more than 255.
    Refused(Refusal),
    /// A codec fault, C1 to C4.
    Fault(CodecFault),
}

impl fmt::Display for ReadError {
    ghost output = { λ error. Some (error_words error) };

    fn fmt<W: fmt::Write>(&self, f: &mut fmt::Formatter<W>) -> fmt::Result {
        match self {
            ReadError::Refused(refusal) => refusal.fmt(f),
            ReadError::Fault(fault) => fault.fmt(f),
        }
    }
}

impl Error for ReadError {}

impl From<Refusal> for ReadError {
    ghost from_gives = { λ x r. r ≡ Refused x };

    fn from(refusal: Refusal) -> Self {
        Self::Refused(refusal)
    }
}

impl From<CodecFault> for ReadError {
    ghost from_gives = { λ x r. r ≡ Fault x };

    fn from(fault: CodecFault) -> Self {
        Self::Fault(fault)
    }
}
