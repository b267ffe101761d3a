ghost use Rattle.std.specs.Prelude.{◌≡◌};
ghost use Rattle.frame.specs.Reading.{reading, reading_of as read_as, reading_of_sep, sep_reading, contents_reading, coded_result, contents_result};
ghost use Rattle.frame.specs.Writing.{WritesAgain};

use super::faults::{CodecFault, ReadError, Refusal};
use super::types::{Body, Message, MessageKind, Service};
use buffers::MAX_FRAME;

fn read_sep(sep: u8) -> Result<(Service, MessageKind), CodecFault>
    ensures { coded_result result ≡ sep_reading sep }
{
    if sep >> 6 != 0 {
        return Err(CodecFault::RfuBit);
    }
    let service = Service::try_from((sep >> 4) % 4)?;
    let kind = MessageKind::try_from(sep % 16)?;
    Ok((service, kind))
}

fn read_body(kind: MessageKind, rest: &[u8]) -> Result<Body<'_>, CodecFault>
    ensures { contents_result result ≡ contents_reading kind rest.now }
{
    match kind {
        MessageKind::ActReq => match rest {
            [pid, payload @ ..] => Ok(Body::ActReq(*pid, payload)),
            [] => Err(CodecFault::WrongFields),
        },
        MessageKind::ActRes => Ok(Body::ActRes(rest)),
        MessageKind::VfyReq => Ok(Body::VfyReq(rest)),
        MessageKind::VfyRes => Ok(Body::VfyRes(rest)),
        MessageKind::Enc => Ok(Body::Enc(rest)),
        MessageKind::Tmn => match rest {
            [] => Ok(Body::Tmn(rest)),
            _ => Err(CodecFault::WrongFields),
        },
        MessageKind::Error => Ok(Body::Error(rest)),
    }
}

fn read_fields(sep: u8, rest: &[u8]) -> Result<Message<'_>, ReadError>
    ensures { read_as result ≡ reading_of_sep (sep_reading sep) rest.now }
{
    let (service, kind) = read_sep(sep)?;
    let body = read_body(kind, rest)?;
    Ok(Message { service, body })
}

/// Reads the message of a frame of 1 to 255 bytes, from which it borrows its payload. `write` makes the same bytes of the message.
/// Errors, the first that applies: refused 3 (no byte, or more than 255), then the faults C1 to C4.
pub fn read(frame: &[u8]) -> Result<Message<'_>, ReadError>
    ensures answer { read_as result ≡ reading frame.now }
    ensures again { WritesAgain frame.now (read_as result) }
{
    match frame {
        [sep, rest @ ..] if frame.len() <= MAX_FRAME => read_fields(*sep, rest),
        _ => Err(Refusal::FrameLength.into()),
    }
}
