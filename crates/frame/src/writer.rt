ghost use Rattle.std.specs.Prelude.{◌≡◌, ◌+◌, ◌<◌, ◌≤◌, not, ◌||◌, ◌++◌, length, nat_lt};
ghost use Rattle.frame.specs.Frames.{parts_of, sep as sep_of, contents_of, bytes_after_sep, wire_bytes};
ghost use Rattle.buffers.specs.Buffers.{with_front, length_result, buffer_after};
ghost use Rattle.frame.specs.Writing.{writing_result, numbered_result, is_tmn_with_payload, ReadsBack};

use super::faults::Refusal;
use super::types::{Body, Message, MessageKind, Service};
use buffers::{MAX_FRAME, MAX_PAYLOAD, write_front};

fn sep(service: Service, kind: MessageKind) -> u8
    ensures { result ≡ sep_of service kind }
{
    (service.code() << 4) + kind.code()
}

// Returns whether it has a frame: at most 255 bytes, and no payload in a TMN.
fn has_frame(body: &Body<'_>) -> bool
    ensures { result ≡ not (nat_lt MAX_PAYLOAD (length (bytes_after_sep (contents_of body.now))) || is_tmn_with_payload (contents_of body.now)) }
{
    match body {
        Body::ActReq(_, payload) => payload.len() < MAX_PAYLOAD,
        Body::Tmn(payload) => payload.is_empty(),
        _ => body.payload().len() <= MAX_PAYLOAD,
    }
}

// Writes `head` and then the payload to the front of `out`, and returns their length. This and `put` require room, since `write` has tested
// it before.
fn put_frame(head: &[u8], payload: &[u8], out: &mut [u8]) -> usize
    requires { length head.now + length payload.now ≤ length out.old }
    ensures answer { result ≡ length (head.now ++ payload.now) }
    ensures bytes { out.new ≡ with_front (head.now ++ payload.now) out.old }
{
    let start = write_front(head, out).unwrap();
    start + write_front(payload, &mut out[start..]).unwrap()
}

fn put(message: &Message<'_>, out: &mut [u8]) -> usize
    requires { length (bytes_after_sep (contents_of message.now.body)) < length out.old }
    ensures answer { result ≡ length (wire_bytes (parts_of message.now)) }
    ensures bytes { out.new ≡ with_front (wire_bytes (parts_of message.now)) out.old }
{
    let sep = sep(message.service, message.body.kind());
    match message.body {
        Body::ActReq(pid, payload) => put_frame(&[sep, pid], payload, out),
        body => put_frame(&[sep], body.payload(), out),
    }
}

/// Writes the frame of a message to the front of `out`, and returns its length, 1 to 255. `read` makes the same message of it.
/// Refused, and nothing is written: 1 (`out` below 255 bytes), 3 (a frame of more than 255 bytes, or a TMN with payload).
pub fn write(message: &Message<'_>, out: &mut [u8]) -> Result<usize, Refusal>
    ensures answer { numbered_result result ≡ length_result (writing_result (parts_of message.now) (length out.old)) }
    ensures bytes { out.new ≡ buffer_after (writing_result (parts_of message.now) (length out.old)) out.old }
    ensures back { ReadsBack (parts_of message.now) result out.new }
{
    if out.len() < MAX_FRAME {
        return Err(Refusal::ReplyBuffer);
    }
    if !has_frame(&message.body) {
        return Err(Refusal::FrameLength);
    }
    Ok(put(message, out))
}
