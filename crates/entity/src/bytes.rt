ghost use Rattle.std.specs.Prelude.{◌≡◌, ◌≤◌, false, cond, length, replicate, Ok, Err};
ghost use Rattle.std.specs.Result.{result_map_both};
ghost use Rattle.buffers.specs.Buffers.{with_front};
ghost use Rattle.frame.specs.Frames.{contents_of};
ghost use Rattle.frame.specs.Writing.{is_tmn_with_payload};
ghost use Rattle.suite.specs.Calls.{is_short_buffer, is_wrong_seed};
ghost use Rattle.protocol.specs.declared.refusals.Refusal.TheVariants.{ReplyBuffer, SeedLength};
ghost use Rattle.protocol.specs.Steps.{frame_bytes};

use buffers::MAX_FRAME;
use frame::{Body, Message, Service, write};
use protocol::Refusal;

// Refusal 1 for a reply buffer without room for any frame.
pub(crate) fn has_room(reply: &[u8]) -> Result<(), Refusal>
    ensures { result ≡ cond (is_short_buffer (length reply.now)) (Err ReplyBuffer) (Ok tt) }
{
    if reply.len() < MAX_FRAME {
        return Err(Refusal::ReplyBuffer);
    }
    Ok(())
}

// Refusal 2 for a seed that does not have 16 bytes.
pub(crate) fn seed_bytes(seed: &[u8]) -> Result<&[u8; 16], Refusal>
    ensures { result_map_both (λ x. x.now) (λ e. e) result ≡ cond (is_wrong_seed seed.now) (Err SeedLength) (Ok seed.now) }
{
    seed.as_array::<16>().ok_or(Refusal::SeedLength)
}

// Writes a message to the front of a buffer with room for any frame, and returns its length.
pub(crate) fn write_message(service: Service, body: Body<'_>, reply: &mut [u8]) -> usize
    requires room { MAX_FRAME ≤ length reply.old }
    requires short { length (frame_bytes service (contents_of body)) ≤ MAX_FRAME }
    requires plain { is_tmn_with_payload (contents_of body) ≡ false }
    ensures answer { result ≡ length (frame_bytes service (contents_of body.entry)) }
    ensures within { result ≤ MAX_FRAME }
    ensures buffer { reply.new ≡ with_front (frame_bytes service (contents_of body.entry)) reply.old }
{
    write(&Message { service, body }, reply).unwrap()
}

// Sets bytes in which data lay to zeros.
pub(crate) fn wipe(scratch: &mut [u8; MAX_FRAME])
    ensures { scratch.new ≡ replicate MAX_FRAME 0 }
{
    scratch.fill(0);
}
