ghost use Rattle.std.specs.Prelude.{◌≡◌, Some};
ghost use Rattle.protocol.specs.Numbers.{refusal_number, frame_refusal};
ghost use Rattle.protocol.specs.Words.{refusal_words};

use std::error::Error;
use std::fmt;

/// Why a call of an entity is refused. A refused call alters nothing: not the entity, not its suite, not the buffer.
#[derive(Clone, Copy, Debug, PartialEq, Eq)]
pub enum Refusal {
    /// 1: the reply buffer has fewer than 255 bytes, however short the reply would be.
    ReplyBuffer = 1,
    /// 2: the seed does not have 16 bytes.
    SeedLength = 2,
    /// 3: the frame has no byte, or more than 255.
    FrameLength = 3,
    /// 4: a record came while the data of the one before it is still held.
    DataHeld = 4,
    /// 5: the request is not allowed in this state.
    WrongState = 5,
    /// 6: the PID is not the suite's.
    OtherPid = 6,
    /// 7: the data to be sent has no byte, or more than 200.
    DataLength = 7,
    /// 8: the number is the suite's last, so no further record can be sent in this session.
    NumberSpent = 8,
    /// 9: no data is held.
    NothingHeld = 9,
    /// 10: the buffer is shorter than what is to be retrieved.
    SmallBuffer = 10,
}

impl Refusal {
    /// Its number, 1 to 10. A method, since `u8::from` would not say which number it is.
    pub fn number(self) -> u8
        ensures { result ≡ refusal_number self }
    {
        self as u8
    }
}

impl fmt::Display for Refusal {
    ghost output = { λ refusal. Some (refusal_words refusal) };

    fn fmt<W: fmt::Write>(&self, f: &mut fmt::Formatter<W>) -> fmt::Result {
        f.write_str(match self {
            Refusal::ReplyBuffer => "the reply buffer has fewer than 255 bytes",
            Refusal::SeedLength => "a seed has 16 bytes",
            Refusal::FrameLength => "a frame has 1 to 255 bytes, and a TMN nothing after SEP",
            Refusal::DataHeld => "the data of the record before is still held",
            Refusal::WrongState => "the request is not allowed in this state",
            Refusal::OtherPid => "the PID is not the suite's",
            Refusal::DataLength => "the data of a record has 1 to 200 bytes",
            Refusal::NumberSpent => "the last number is used",
            Refusal::NothingHeld => "no data is held",
            Refusal::SmallBuffer => "the buffer is too short",
        })
    }
}

impl Error for Refusal {}

// Both enums number their refusals by one table, so the number stays.
impl From<frame::Refusal> for Refusal {
    ghost from_gives = { λ x r. r ≡ frame_refusal x };

    fn from(refusal: frame::Refusal) -> Self {
        match refusal {
            frame::Refusal::ReplyBuffer => Self::ReplyBuffer,
            frame::Refusal::FrameLength => Self::FrameLength,
        }
    }
}
