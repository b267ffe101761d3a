ghost use Rattle.std.specs.Prelude.{◌≡◌, ◌%◌, ◌≤◌, length, IfErr, IfOk};
ghost use Rattle.std.specs.Result.{result_map_both};
ghost use Rattle.frame.specs.Frames.{bytes_after_sep, parts_of};
ghost use Rattle.frame.specs.Reading.{reading};
ghost use Rattle.protocol.specs.Steps.{HasEffect, reading_effect};
ghost use Rattle.protocol.specs.Calls.{MakesCall, frame as frame_call, is_blocked, admission};
ghost use Rattle.entity.specs.CallViews.{ancillary_of, fitted_ancillary};
ghost use Rattle.entity.specs.Views.{view};
ghost use Rattle.entity.specs.ResultViews.{reading_parts, machine_result};

use super::Entity;
use crate::ancillary::{Ancillary, FittedAncillary};
use crate::bytes::has_room;
use buffers::{MAX_FRAME, MAX_PAYLOAD};
use frame::{Body, CodecFault, Message, ReadError, read};
use protocol::{Fault, Outcome, Refusal, State, at_message};
use suite::Suite;

impl<S: Suite> Entity<S> {
    // Returns whether a message is a record of the session while the data of the one before is held. It is refused: there is one place.
    fn blocks(&self, message: &Message<'_>) -> bool
        ensures { result ≡ is_blocked (view S.meaning self.now) (parts_of message.now) }
    {
        matches!(
            (self.state, message.body),
            (State::ConfirmedSch, Body::Enc(_))
        ) && message.service == self.service
            && !self.held.is_empty()
    }

    // Reads a frame: returns its message or codec fault, or why it is refused.
    fn admit<'a>(&self, frame: &'a [u8]) -> Result<Result<Message<'a>, CodecFault>, Refusal>
        ensures received { result_map_both reading_parts (λ e. e) result ≡ admission (view S.meaning self.now) (reading frame.now) }
        ensures short { IfOk result (λ h. IfOk h (λ m. length (bytes_after_sep (parts_of m).contents) ≤ MAX_PAYLOAD)) }
    {
        match read(frame) {
            Ok(message) if self.blocks(&message) => Err(Refusal::DataHeld),
            Ok(message) => Ok(Ok(message)),
            Err(ReadError::Fault(fault)) => Ok(Err(fault)),
            Err(ReadError::Refused(refusal)) => Err(refusal.into()),
        }
    }

    // Makes the step of a frame. The machine's fault becomes the entity's, with the code of the message.
    fn handle(
        &mut self,
        sep: u8,
        received: Result<Message<'_>, CodecFault>,
        beside: FittedAncillary<'_>,
        reply: &mut [u8],
    ) -> Result<Outcome, Fault>
        requires room { MAX_FRAME ≤ length reply.old }
        requires short { IfOk received (λ m. length (bytes_after_sep (parts_of m).contents) ≤ MAX_PAYLOAD) }
        ensures step { HasEffect (view S.meaning self.old) (reading_effect S.scheme (view S.meaning self.old) (fitted_ancillary beside.entry) (reading_parts received.entry)) (view S.meaning self.new) (machine_result result) reply.old reply.new }
        ensures message { IfErr result (λ f. f.message ≡ sep % 16) }
    {
        Ok(at_message(sep % 16, self.step(received, beside, reply))?)
    }

    /// Takes a frame from the peer, 1 to 255 bytes, with the seed brought beside it (clauses 11 and 12). If the length of the outcome is
    /// not 0, the reply is to be sent. A fault of the frame is answered by an ERROR and ends the session (confirmation 5).
    ///
    /// Refused: 1 (reply buffer below 255 bytes), 2 (seed not of 16 bytes), 3 (a frame of no byte, or more than 255), 4 (a record while
    /// data is held).
    pub fn frame(
        &mut self,
        frame: &[u8],
        beside: Ancillary<'_>,
        reply: &mut [u8],
    ) -> Result<Outcome, Refusal>
        ensures { MakesCall S.scheme (view S.meaning self.old) (frame_call frame.now (ancillary_of beside.entry) (length reply.old)) (view S.meaning self.new) result reply.old reply.new }
    {
        has_room(reply)?;
        let beside = beside.fit()?;
        let [sep, ..] = frame else {
            return Err(Refusal::FrameLength);
        };
        let received = self.admit(frame)?;
        match self.handle(*sep, received, beside, reply) {
            Ok(outcome) => Ok(outcome),
            Err(fault) => Ok(self.fail(*sep, fault, reply)),
        }
    }
}
