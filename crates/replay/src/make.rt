ghost use Rattle.std.specs.Prelude.{◌≡◌, ◌≤◌, length, replicate, IfOk};
ghost use Rattle.buffers.specs.Buffers.{with_front};
ghost use Rattle.protocol.specs.Calls.{call_effect};
ghost use Rattle.entity.specs.Views.{view};
ghost use Rattle.replay.specs.LogViews.{logged_call};
ghost use Rattle.replay.specs.Entries.{written_bytes, bytes_of_answer};

use super::entry::WrittenBytes;
use super::logged::LoggedCall;
use buffers::MAX_FRAME;
use entity::{Entity, Slip};
use protocol::{Outcome, Refusal};
use suite::Suite;

// Returns the bytes that a call wrote, by the length that it returned; no bytes if it was refused.
fn written(answer: Result<Outcome, Refusal>, buffer: &[u8]) -> WrittenBytes
    requires within { IfOk answer (λ o. o.length ≤ length buffer.now) }
    requires short { IfOk answer (λ o. o.length ≤ MAX_FRAME) }
    ensures { written_bytes result ≡ bytes_of_answer answer buffer.now }
{
    match answer {
        Ok(outcome) => WrittenBytes::new(&buffer[..outcome.length]),
        Err(_) => WrittenBytes::nothing(),
    }
}

// Makes a call with the first bytes of a longer buffer, and clears them afterwards, since a secret or data may lie in them.
pub(crate) fn make<S: Suite>(
    entity: &mut Entity<S>,
    logged: &LoggedCall<'_>,
    buffer: &mut [u8],
) -> (Result<Outcome, Refusal>, WrittenBytes)
    requires { logged.now.room ≤ length buffer.old }
    ensures model { view S.meaning entity.new ≡ (call_effect S.scheme (view S.meaning entity.old) (logged_call logged.now)).model }
    ensures answer { result.0 ≡ (call_effect S.scheme (view S.meaning entity.old) (logged_call logged.now)).answer }
    ensures written { written_bytes result.1 ≡ (call_effect S.scheme (view S.meaning entity.old) (logged_call logged.now)).reply }
    ensures cleared { buffer.new ≡ with_front (replicate logged.now.room 0) buffer.old }
{
    let slip = Slip::take_out();
    let lent = &mut buffer[..logged.room];
    let answer = entity.call(&logged.call, &slip, lent);
    let written = written(answer, lent);
    slip.hand_in(lent);
    (answer, written)
}
