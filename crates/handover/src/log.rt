// The log of a station: the calls of its entity, with their bytes.
ghost use Rattle.std.specs.Prelude.{◌≤◌, IfOk};

use entity::{Ancillary, Call};
use frame::MAX_FRAME;
use protocol::{Outcome, Refusal};
use replay::LoggedCall;

// Fixed seeds, so that a run can be followed. A device draws a new one each time.
pub(super) const OWN_SEED: [u8; 16] = [0x5A; 16];

const SPARE_SEED: [u8; 16] = [0xA5; 16];

// What a call wrote to its buffer: a frame, or data. No call writes more than 255 bytes, so the length is a byte.
#[derive(Clone, Copy)]
pub(super) struct Frame {
    bytes: [u8; MAX_FRAME],
    length: u8,
}

impl Frame {
    pub(super) fn new(answer: Result<Outcome, Refusal>, bytes: [u8; MAX_FRAME]) -> Frame
        requires { IfOk answer (λ o. o.length ≤ MAX_FRAME) }
    {
        let length = match answer {
            Ok(outcome) => outcome.length as u8,
            Err(_refusal) => 0,
        };
        Frame { bytes, length }
    }

    pub(super) fn bytes(&self) -> &[u8] {
        &self.bytes[..usize::from(self.length)]
    }
}

// A call of a station's entity.
#[derive(Clone, Copy)]
pub(super) enum StationCall {
    // A frame came from the other device.
    Received(Frame),
    // The user asked, with bytes that are constants of the program.
    Asked(Call<'static>),
}

impl StationCall {
    // The call as a replay takes it.
    pub(super) fn logged(&self) -> LoggedCall<'_> {
        let call = match self {
            StationCall::Received(frame) => Call::Frame {
                bytes: frame.bytes(),
                beside: Ancillary { seed: &SPARE_SEED },
            },
            StationCall::Asked(call) => *call,
        };
        LoggedCall {
            call,
            room: MAX_FRAME,
        }
    }
}
