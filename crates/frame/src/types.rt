ghost use Rattle.std.specs.Prelude.{◌≡◌, Some};
ghost use Rattle.frame.specs.Numbers.{service_code, message_code};
ghost use Rattle.frame.specs.Frames.{contents_of, kind_of, payload_of};
ghost use Rattle.frame.specs.Reading.{service_result, kind_result};
ghost use Rattle.frame.specs.Words.{service_words, message_words};

use super::faults::CodecFault;
use std::fmt;

/// The service that a session or a frame is of: SVC, the bits 6 and 5 of SEP (clause 11.1, table 3).
#[derive(Clone, Copy, Debug, PartialEq, Eq)]
pub enum Service {
    /// 00: a shared secret for the users.
    Sse = 0,
    /// 01: a secure channel for records.
    Sch = 1,
}

impl Service {
    /// Its SVC bits, 0 or 1. A method, since `u8::from` would not say which number it is.
    pub fn code(self) -> u8
        ensures { result ≡ service_code self }
    {
        self as u8
    }
}

// By the SVC bits: C2 for every number other than 0 and 1.
impl TryFrom<u8> for Service {
    type Error = CodecFault;

    ghost try_from_gives = { λ code r. r ≡ service_result code };

    fn try_from(code: u8) -> Result<Self, CodecFault> {
        match code {
            0 => Ok(Service::Sse),
            1 => Ok(Service::Sch),
            _ => Err(CodecFault::NoService),
        }
    }
}

// The standard's name, and what it stands for.
impl fmt::Display for Service {
    ghost output = { λ service. Some (service_words service) };

    fn fmt<W: fmt::Write>(&self, f: &mut fmt::Formatter<W>) -> fmt::Result {
        f.write_str(match self {
            Service::Sse => "SSE, the shared secret service",
            Service::Sch => "SCH, the secure channel service",
        })
    }
}

/// Which message a frame is: MSG, the bits 4 to 1 of SEP (clause 11.1, table 3). `Body` says what each has after SEP.
#[derive(Clone, Copy, Debug, PartialEq, Eq)]
pub enum MessageKind {
    /// 0, ACT_REQ: activation request.
    ActReq = 0b0000,
    /// 1, ACT_RES: activation response.
    ActRes = 0b0001,
    /// 2, VFY_REQ: verification request.
    VfyReq = 0b0010,
    /// 3, VFY_RES: verification response.
    VfyRes = 0b0011,
    /// 4, ENC: encrypted packet.
    Enc = 0b0100,
    /// 6, TMN: terminate (clause 11.4).
    Tmn = 0b0110,
    /// 15, ERROR (clause 11.5).
    Error = 0b1111,
}

impl MessageKind {
    /// Its MSG bits, 0 to 15. A method, since `u8::from` would not say which number it is.
    pub fn code(self) -> u8
        ensures { result ≡ message_code self }
    {
        self as u8
    }
}

// By the MSG bits: C3 for every number that is the code of no message.
impl TryFrom<u8> for MessageKind {
    type Error = CodecFault;

    ghost try_from_gives = { λ code r. r ≡ kind_result code };

    fn try_from(code: u8) -> Result<Self, CodecFault> {
        match code {
            0b0000 => Ok(MessageKind::ActReq),
            0b0001 => Ok(MessageKind::ActRes),
            0b0010 => Ok(MessageKind::VfyReq),
            0b0011 => Ok(MessageKind::VfyRes),
            0b0100 => Ok(MessageKind::Enc),
            0b0110 => Ok(MessageKind::Tmn),
            0b1111 => Ok(MessageKind::Error),
            _ => Err(CodecFault::NoMessage),
        }
    }
}

// The standard's name, and what it stands for.
impl fmt::Display for MessageKind {
    ghost output = { λ kind. Some (message_words kind) };

    fn fmt<W: fmt::Write>(&self, f: &mut fmt::Formatter<W>) -> fmt::Result {
        f.write_str(match self {
            MessageKind::ActReq => "ACT_REQ, activation request",
            MessageKind::ActRes => "ACT_RES, activation response",
            MessageKind::VfyReq => "VFY_REQ, verification request",
            MessageKind::VfyRes => "VFY_RES, verification response",
            MessageKind::Enc => "ENC, encrypted packet",
            MessageKind::Tmn => "TMN, terminate",
            MessageKind::Error => "ERROR, error",
        })
    }
}

/// A message without its service: what follows SEP. The payload is borrowed, from the frame where it was read.
#[derive(Clone, Copy, Debug, PartialEq, Eq)]
pub enum Body<'a> {
    /// PID (clause 11.2) and payload: of an entity, the Sender's offer (clause 9.1).
    ActReq(u8, &'a [u8]),
    /// The payload: of an entity, the Recipient's offer (clause 9.1).
    ActRes(&'a [u8]),
    /// The payload: of an entity, the Sender's check value (clause 9.2).
    VfyReq(&'a [u8]),
    /// The payload: of an entity, the Recipient's check value (clause 9.2).
    VfyRes(&'a [u8]),
    /// The payload: of an entity, a protected record (clause 9.3).
    Enc(&'a [u8]),
    /// Always empty in a frame (clause 11.4): the writer refuses any payload (3).
    Tmn(&'a [u8]),
    /// The payload; its part before the first 00 is the detail (clause 11.5).
    Error(&'a [u8]),
}

/// A message, as the reader returns it and the writer takes it.
#[derive(Clone, Copy, Debug, PartialEq, Eq)]
pub struct Message<'a> {
    /// The service that the SVC bits of SEP name.
    pub service: Service,
    /// Which message it is, with PID and payload.
    pub body: Body<'a>,
}

impl<'a> Body<'a> {
    /// Returns which message it is.
    pub fn kind(&self) -> MessageKind
        ensures { result ≡ kind_of (contents_of self.now) }
    {
        match self {
            Body::ActReq(_, _) => MessageKind::ActReq,
            Body::ActRes(_) => MessageKind::ActRes,
            Body::VfyReq(_) => MessageKind::VfyReq,
            Body::VfyRes(_) => MessageKind::VfyRes,
            Body::Enc(_) => MessageKind::Enc,
            Body::Tmn(_) => MessageKind::Tmn,
            Body::Error(_) => MessageKind::Error,
        }
    }

    /// Returns the payload, without the PID.
    pub fn payload(&self) -> &'a [u8]
        ensures { result.now ≡ payload_of (contents_of self.now) }
    {
        match self {
            Body::ActReq(_, payload)
            | Body::ActRes(payload)
            | Body::VfyReq(payload)
            | Body::VfyRes(payload)
            | Body::Enc(payload)
            | Body::Tmn(payload)
            | Body::Error(payload) => payload,
        }
    }
}
